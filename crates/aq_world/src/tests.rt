use crate::out_sink::write_some;
use crate::reading::{Reading, read_at_most, write_whole};
use crate::{
    FileShelf, HonestShelf, HonestSink, MemoryShelf, MemorySink, Named, OutSink, Piece, ReadFault,
    Shelf, Sink, put_pieces, put_text,
};
use aq_lex::Text;
use sqlite_items::Items;
use std::alloc::{AllocError, Global};
use std::io::{ErrorKind, Read, Write};
use std::test::Fail;
use std::{fs, io};

/// The byte that a test shows for an answer: how many bytes were read, or why none were.
fn read_by<S: Shelf>(shelf: &mut S, name: &str, most: u64) -> Result<usize, u8> {
    match shelf.read(name, most) {
        Ok(bytes) => Ok(bytes.len()),
        Err(ReadFault::Failed) => Err(b'F'),
        Err(ReadFault::TooLong(bytes)) => Err(b'0' + (bytes.len() % 10) as u8),
        Err(ReadFault::Memory) => Err(b'M'),
    }
}

fn keep_by<S: Shelf>(shelf: &mut S, name: &str, bytes: &[u8]) -> bool {
    shelf.keep(name, bytes).is_ok()
}

fn put_by<K: Sink>(out: &mut K, pieces: &[Piece<'_>]) -> bool {
    put_pieces(out, pieces).is_ok()
}

fn files_of(alloc: Global, name: &[u8], bytes: &[u8]) -> Result<Items<Named>, AllocError> {
    let mut files = Items::new(alloc);
    files.push(Named {
        name: Text::from_slice(alloc, name)?,
        bytes: Text::from_slice(alloc, bytes)?,
    })?;
    Ok(files)
}

#[test]
fn pieces_are_printed(rt: HostRuntime) -> Result<(), Fail> {
    let alloc = rt.alloc();
    let bits = [true, false, false];
    let rows: [(Piece<'_>, &[u8]); 11] = [
        (Piece::Text(b"a b"), b"a b"),
        (Piece::Text(b""), b""),
        (Piece::Number(0), b"0"),
        (Piece::Number(u64::MAX), b"18446744073709551615"),
        (Piece::Signed(-1), b"-1"),
        (Piece::Signed(120), b"120"),
        (
            Piece::Signed(i128::MIN),
            b"-170141183460469231731687303715884105728",
        ),
        (Piece::Bits(&bits), b"100"),
        (Piece::Bits(&[]), b"-"),
        (
            Piece::Ket {
                qubits: 5,
                index: 6,
            },
            b"|00110>",
        ),
        (
            Piece::Ket {
                qubits: 66,
                index: u64::MAX,
            },
            b"|001111111111111111111111111111111111111111111111111111111111111111>",
        ),
    ];
    for (piece, wanted) in rows {
        let mut out = HonestSink {
            bytes: Text::new(alloc),
        };
        assert!(rt; put_by(&mut out, &[piece]));
        assert_eq!(rt; out.bytes.as_slice(), wanted);
    }
    Ok(())
}

#[test]
fn a_line_is_put_by_one_call(rt: HostRuntime) -> Result<(), Fail> {
    let alloc = rt.alloc();
    let mut out = MemorySink {
        bytes: Text::new(alloc),
        most: 1000,
        fails: Items::new(alloc),
        calls: 0,
        count: 0,
    };
    assert!(rt; put_by(&mut out, &[Piece::Text(b""), Piece::Text(b"")]));
    assert_eq!(rt; out.calls, 0);
    let line = [
        Piece::Number(12),
        Piece::Text(b" keep line "),
        Piece::Number(3),
    ];
    assert!(rt; put_by(&mut out, &line));
    assert_eq!(rt; out.calls, 1);
    assert_eq!(rt; out.bytes.as_slice(), b"12 keep line 3".as_slice());
    let long = [b'x'; 600];
    assert!(rt; put_by(&mut out, &[Piece::Text(&long)]));
    assert_eq!(rt; out.calls, 4);
    assert_eq!(rt; out.bytes.as_slice().len(), 614);
    Ok(())
}

#[test]
fn a_failed_call_leaves_a_front(rt: HostRuntime) -> Result<(), Fail> {
    let alloc = rt.alloc();
    let mut fails = Items::new(alloc);
    fails.push(5)?;
    let mut out = MemorySink {
        bytes: Text::new(alloc),
        most: 1,
        fails,
        calls: 0,
        count: 0,
    };
    let line = [Piece::Number(1), Piece::Text(b" post: verified\n")];
    assert!(rt; !put_by(&mut out, &line));
    assert_eq!(rt; out.bytes.as_slice(), b"1 pos".as_slice());
    assert_eq!(rt; (out.calls, out.count), (6, 1));
    assert!(rt; put_by(&mut out, &[Piece::Number(20)]));
    assert_eq!(rt; out.bytes.as_slice(), b"1 pos20".as_slice());
    assert!(rt; matches!(out.put(b""), Ok(0)));
    Ok(())
}

#[test]
fn files_in_memory(rt: HostRuntime) -> Result<(), Fail> {
    let alloc = rt.alloc();
    let mut fails = Items::new(alloc);
    fails.push(4)?;
    fails.push(5)?;
    let mut shelf = MemoryShelf {
        alloc,
        files: files_of(alloc, b"a", b"four")?,
        fails,
        calls: 0,
        count: 0,
        blamed: Text::new(alloc),
        keeping: false,
    };
    assert_eq!(rt; read_by(&mut shelf, "a", 4), Ok(4));
    assert_eq!(rt; read_by(&mut shelf, "a", 3), Err(b'4'));
    assert_eq!(rt; shelf.count, 0);
    assert_eq!(rt; read_by(&mut shelf, "b", 4), Err(b'F'));
    assert_eq!(rt;
        (shelf.blamed.as_slice(), shelf.keeping),
        (b"b".as_slice(), false)
    );
    assert!(rt; keep_by(&mut shelf, "b", b"of six"));
    assert!(rt; !keep_by(&mut shelf, "a", b"lost"));
    assert_eq!(rt;
        (shelf.blamed.as_slice(), shelf.keeping),
        (b"a".as_slice(), true)
    );
    assert_eq!(rt; read_by(&mut shelf, "a", 9), Err(b'F'));
    assert_eq!(rt; (shelf.calls, shelf.count), (6, 3));
    assert_eq!(rt; read_by(&mut shelf, "b", 9), Ok(6));
    assert_eq!(rt; read_by(&mut shelf, "a", 9), Ok(4));

    let mut honest = HonestShelf {
        alloc,
        files: files_of(alloc, b"a", b"four")?,
    };
    assert_eq!(rt; read_by(&mut honest, "b", 4), Ok(0));
    assert!(rt; keep_by(&mut honest, "a", b"of six"));
    assert_eq!(rt; read_by(&mut honest, "a", 6), Ok(6));
    assert_eq!(rt; read_by(&mut honest, "a", 0), Err(b'1'));
    assert_eq!(rt; honest.files.len(), 1);
    Ok(())
}

#[test]
fn files_and_output_of_the_runtime(rt: HostRuntime) -> Result<(), Fail> {
    let alloc = rt.alloc();
    let mut shelf = FileShelf::new(&rt, alloc);
    let long = [b'x'; 5000];
    let name = "aq_world_kept";
    assert!(rt; keep_by(&mut shelf, name, &long));
    assert_eq!(rt; read_by(&mut shelf, name, 5000), Ok(5000));
    assert_eq!(rt; read_by(&mut shelf, name, 4998), Err(b'9'));
    assert!(rt; keep_by(&mut shelf, name, b"now"));
    match shelf.read(name, 5000) {
        Ok(bytes) => assert_eq!(rt; bytes.as_slice(), b"now".as_slice()),
        Err(_) => assert!(rt; false),
    }
    fs::remove_file(&rt, name)?;
    assert_eq!(rt; read_by(&mut shelf, name, 9), Err(b'F'));
    assert_eq!(rt; read_by(&mut shelf, ".", 9), Err(b'F'));
    assert!(rt; !keep_by(&mut shelf, "no_such_folder/x", b"lost"));
    assert!(rt; !keep_by(&mut shelf, "/dev/full", b"lost"));
    assert!(rt; keep_by(&mut shelf, "/dev/null", b"lost"));

    let mut out = OutSink::new(&rt);
    assert!(rt;
        put_by(
            &mut out,
            &[
                Piece::Text(b"one line of "),
                Piece::Number(2),
                Piece::Text(b" pieces\n")
            ]
        )
    );
    assert!(rt; put_text(&mut out, b"and one text\n").is_ok());
    assert!(rt; matches!(out.put(b""), Ok(0)));
    Ok(())
}

/// Four bytes, each by a read of its own behind one that is interrupted, and then as a file that can't be read.
#[derive(Drop)]
struct Drips {
    turn: u8,
}

impl Read for Drips {
    fn read(&mut self, buf: &mut [u8]) -> io::Result<usize> {
        let turn = self.turn;
        self.turn = turn.saturating_add(1);
        if turn % 2 == 0 {
            return Err(io::Error::from(ErrorKind::Interrupted));
        }
        if turn > 7 {
            return Err(io::Error::from(ErrorKind::OutOfMemory));
        }
        if buf.is_empty() {
            return Ok(0);
        }
        buf[0] = b'x';
        Ok(1)
    }
}

/// Whether a file of these bytes is told to be longer than this.
fn is_too_long(alloc: Global, file: &mut Reading<Drips>, most: u64) -> bool {
    matches!(read_at_most(file, alloc, most), Err(ReadFault::TooLong(_)))
}

#[test]
fn interrupted_reads_are_tried_again(rt: HostRuntime) -> Result<(), Fail> {
    let mut short = Reading {
        file: Drips { turn: 0 },
        failed: false,
    };
    assert!(rt; is_too_long(rt.alloc(), &mut short, 2));
    assert!(rt; !short.failed);
    let mut whole = Reading {
        file: Drips { turn: 0 },
        failed: false,
    };
    assert!(rt; !is_too_long(rt.alloc(), &mut whole, 9));
    assert!(rt; whole.failed);
    Ok(())
}

/// Takes a byte of each write behind one that is interrupted, and nothing any more once it has three.
#[derive(Drop)]
struct Pipe {
    turn: u8,
    taken: u8,
}

impl Write for Pipe {
    fn write(&mut self, buf: &[u8]) -> io::Result<usize> {
        let turn = self.turn;
        self.turn = turn.saturating_add(1);
        if turn % 2 == 0 {
            return Err(io::Error::from(ErrorKind::Interrupted));
        }
        if buf.is_empty() || self.taken >= 3 {
            return Ok(0);
        }
        self.taken += 1;
        Ok(1)
    }

    fn flush(&mut self) -> io::Result<()> {
        Ok(())
    }
}

#[test]
fn interrupted_writes_are_tried_again(rt: HostRuntime) -> Result<(), Fail> {
    let mut pipe = Pipe { turn: 0, taken: 0 };
    assert_eq!(rt; write_some(&mut pipe, b"ab"), Some(1));
    assert!(rt; write_whole(&mut pipe, b"bc"));
    assert_eq!(rt; write_some(&mut pipe, b"d"), None);
    assert!(rt; !write_whole(&mut pipe, b"d"));
    assert_eq!(rt; (pipe.turn, pipe.taken), (10, 3));
    Ok(())
}
