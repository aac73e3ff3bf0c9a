//! Files that are read and written through any reader and writer.
ghost use Rattle.std.specs.Prelude.{◌≡◌, ◌≤◌, ◌||◌, IfSome, IsTrue, length};
ghost use Rattle.std.specs.Io.KnownBytes.{Appends};
ghost use Rattle.aq_world.specs.Readers.{ReadsSome, FailsAs};
ghost use Rattle.aq_world.specs.Shelves.{LeftGives, read_failed};

use crate::shelf::ReadFault;
use std::alloc::Global;
use std::io::{ErrorKind, Read, Write};

/// A file that is read, and whether a read of it has failed.
#[derive(Drop)]
pub(crate) struct Reading<F> {
    pub(crate) file: F,
    pub(crate) failed: bool,
}

impl<F: Read> Reading<F> {
    /// Reads into the buffer by one read, which is tried again where it was interrupted, and says how many bytes came:
    /// none at the end of the file. None: the file can't be read.
    fn read(&mut self, buf: &mut [u8]) -> Option<usize>
        ensures within { IfSome result (λ k. k ≤ length buf.new) }
        ensures bytes { ReadsSome (F.remaining self.old.file) (F.remaining self.new.file) buf.new result }
        ensures failed { FailsAs self.old.failed self.new.failed result }
    {
        for _ in 0..u64::MAX {
            match self.file.read(buf) {
                Ok(count) => return Some(count),
                Err(fault) if fault.kind() == ErrorKind::Interrupted => {}
                Err(_) => break,
            }
        }
        self.failed = true;
        None
    }
}

/// All that is left of a file, or `TooLong` with the first `most + 1` bytes of it. `Failed`: a read of it failed.
pub(crate) fn read_at_most<F: Read>(
    file: &mut Reading<F>,
    alloc: Global,
    most: u64,
) -> Result<Vec<u8>, ReadFault>
    ensures bytes { LeftGives (F.remaining file.old.file) most result }
    ensures failed { file.new.failed ≡ (file.old.failed || read_failed result) }
{
    let mut bytes = Vec::new(alloc);
    let mut buf = [0u8; 4096];
    loop {
        let Some(count) = file.read(&mut buf) else {
            return Err(ReadFault::Failed);
        };
        if count == 0 {
            return Ok(bytes);
        }
        let room = most - bytes.len() as u64;
        let taken = if count as u64 > room {
            room as usize + 1
        } else {
            count
        };
        bytes
            .extend_from_slice(&buf[..taken])
            .map_err(|_| ReadFault::Memory)?;
        if taken as u64 > room {
            return Err(ReadFault::TooLong(bytes));
        }
    }
}

/// Writes the bytes, and says whether all of them were written. A write that takes nothing stops it, and one that was
/// interrupted is tried again.
pub(crate) fn write_whole<F: Write>(file: &mut F, bytes: &[u8]) -> bool
    ensures { IsTrue result → Appends (F.contents file.old) (F.contents file.new) bytes.now }
{
    file.write_all(bytes).is_ok()
}
