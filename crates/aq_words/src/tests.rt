use crate::{Command, WordsFault, read_words};
use std::alloc::{AllocError, Global};
use std::test::Fail;

/// What words ask for, each text in brackets; nothing where they are refused.
fn asked(alloc: Global, words: &[&str]) -> Result<Option<String>, AllocError> {
    let mut all = Vec::new(alloc);
    for word in words {
        all.push(String::from_str(alloc, word)?)?;
    }
    match read_words(alloc, all.as_slice()) {
        Ok(Command::Check(w)) => Ok(Some(format!(in alloc;
            "check [{}] [{}] [{}] [{}] {}",
            w.program.as_str(),
            w.sets.as_str(),
            w.pre.as_str(),
            w.post.as_str(),
            w.steps
        )?)),
        Ok(Command::Replay(w)) => Ok(Some(format!(in alloc;
            "replay [{}] [{}] [{}] [{}]",
            w.program.as_str(),
            w.sets.as_str(),
            w.state.as_str(),
            w.outcomes.as_str()
        )?)),
        Ok(Command::Trial(number)) => Ok(Some(format!(in alloc; "trial {number}")?)),
        Err(WordsFault::Usage) => Ok(None),
        Err(WordsFault::Memory) => Err(AllocError),
    }
}

#[test]
fn words_that_are_taken(rt: HostRuntime) -> Result<(), Fail> {
    let rows: [(&[&str], &str); 17] = [
        (&["check", "P", "S"], "check [P] [S] [pre] [post] 20000000"),
        (
            &["check", "P", "S", "--steps", "5"],
            "check [P] [S] [pre] [post] 5",
        ),
        (
            &["check", "P", "--steps=5", "S"],
            "check [P] [S] [pre] [post] 5",
        ),
        (
            &["check", "P", "S", "--steps", "+5"],
            "check [P] [S] [pre] [post] 5",
        ),
        (
            &["check", "P", "S", "--steps", "007"],
            "check [P] [S] [pre] [post] 7",
        ),
        (
            &["check", "P", "S", "--steps", "1000000000"],
            "check [P] [S] [pre] [post] 1000000000",
        ),
        (
            &["check", "--post", "b", "P", "--pre", "a", "S"],
            "check [P] [S] [a] [b] 20000000",
        ),
        (
            &["check", "P", "S", "--pre="],
            "check [P] [S] [] [post] 20000000",
        ),
        (
            &["check", "P", "S", "--pre", "-"],
            "check [P] [S] [-] [post] 20000000",
        ),
        (
            &["check", "P", "S", "--"],
            "check [P] [S] [pre] [post] 20000000",
        ),
        (
            &["check", "--", "--pre", "-h"],
            "check [--pre] [-h] [pre] [post] 20000000",
        ),
        (&["check", "", ""], "check [] [] [pre] [post] 20000000"),
        (
            &["replay", "P", "S", "--state", "z"],
            "replay [P] [S] [z] []",
        ),
        (
            &["replay", "--outcomes", "1a", "P", "S", "--state=z"],
            "replay [P] [S] [z] [1a]",
        ),
        (&["trial", "1"], "trial 1"),
        (&["trial", "13"], "trial 13"),
        (&["trial", "--", "+04"], "trial 4"),
    ];
    for (words, wanted) in rows {
        let text = asked(rt.alloc(), words)?;
        assert_eq!(rt; text.as_deref(), Some(wanted));
    }
    Ok(())
}

#[test]
fn words_that_are_refused(rt: HostRuntime) -> Result<(), Fail> {
    let rows: [&[&str]; 34] = [
        &[],
        &[""],
        &["chec", "P", "S"],
        &["checks", "P", "S"],
        &["Check", "P", "S"],
        &["recheck", "P", "S", "C"],
        &["--help"],
        &["-h"],
        &["help"],
        &["check"],
        &["check", "P"],
        &["check", "P", "S", "T"],
        &["check", "P", "S", "--steps", "0"],
        &["check", "P", "S", "--steps", "1000000001"],
        &["check", "P", "S", "--steps", "18446744073709551617"],
        &["check", "P", "S", "--steps", "-5"],
        &["check", "P", "S", "--steps", "5 "],
        &["check", "P", "S", "--steps="],
        &["check", "P", "S", "--steps"],
        &["check", "P", "S", "--pre", "--"],
        &["check", "P", "S", "--pre", "-x"],
        &["check", "P", "S", "--pre", "a", "--pre", "a"],
        &["check", "P", "S", "--step", "5"],
        &["check", "P", "S", "--cert", "F"],
        &["check", "P", "S", "--state", "z"],
        &["check", "P", "S", "--version"],
        &["check", "P", "S", "--help"],
        &["check", "-h"],
        &["replay", "P", "S"],
        &["replay", "P", "S", "--outcomes", "1"],
        &["trial"],
        &["trial", "0"],
        &["trial", "14"],
        &["trial", "1", "2"],
    ];
    for words in rows {
        assert!(rt; asked(rt.alloc(), words)?.is_none());
    }
    Ok(())
}
