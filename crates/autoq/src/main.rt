//! `autoq`: checks annotated quantum programs against sets of states.
#![tactic(auto)]

use aq_top::{Status, run, say_memory};
use aq_world::{FileShelf, OutSink};
use std::env;
use std::io::ErrorKind;
use std::process::ExitCode;
use std::rt::Env;

/// Why the words after the program's name aren't known.
#[derive(Debug, Drop)]
enum WordsFault {
    /// One of them isn't text.
    NotText,
    /// Out of memory.
    Memory,
}

/// The words after the program's name.
fn words_given<R: Env + AllocGlobal>(rt: &R) -> Result<Vec<String>, WordsFault> {
    let args = env::args(rt).map_err(|fault| {
        if fault.kind() == ErrorKind::OutOfMemory {
            WordsFault::Memory
        } else {
            WordsFault::NotText
        }
    })?;
    args.skip(1)
        .collect::<Vec<String>>(rt.alloc())
        .map_err(|_| WordsFault::Memory)
}

fn main(rt: HostRuntime) -> ExitCode {
    let mut out = OutSink::new(&rt);
    let status = match words_given(&rt) {
        Ok(words) => {
            let mut shelf = FileShelf::new(&rt, rt.alloc());
            run(rt.alloc(), words.as_slice(), &mut shelf, &mut out)
        }
        Err(WordsFault::NotText) => Status::Usage,
        Err(WordsFault::Memory) => say_memory(&mut out),
    };
    ExitCode::from(status.code())
}
