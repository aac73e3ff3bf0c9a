use crate::{Status, run, run_honest};
use aq_lex::Text;
use aq_world::{HonestShelf, HonestSink, MemoryShelf, MemorySink, Named, Shelf, Sink};
use sqlite_items::Items;
use std::alloc::{AllocError, Global};
use std::test::Fail;

const BELL: &[u8] =
    b"OPENQASM 3.0;\ninclude \"stdgates.inc\";\nqubit[2] q;\nh q[0];\ncx q[0], q[1];\n";

const PLUS: &[u8] = b"claim pre = [|00>];\nclaim post = [|00> + |11>];\n";

const MINUS: &[u8] = b"claim pre = [|00>];\nclaim post = [|00> - |11>];\n";

fn files_of(alloc: Global, program: &[u8], sets: &[u8]) -> Result<Items<Named>, AllocError> {
    let mut files = Items::new(alloc);
    files.push(Named {
        name: Text::from_slice(alloc, b"P")?,
        bytes: Text::from_slice(alloc, program)?,
    })?;
    files.push(Named {
        name: Text::from_slice(alloc, b"bell.sets")?,
        bytes: Text::from_slice(alloc, sets)?,
    })?;
    Ok(files)
}

fn words_of(alloc: Global, words: &[&str]) -> Result<Vec<String>, AllocError> {
    let mut all = Vec::new(alloc);
    for word in words {
        all.push(String::from_str(alloc, word)?)?;
    }
    Ok(all)
}

/// The status of `check P bell.sets`, by the bounds alone.
fn check_by<S: Shelf, K: Sink>(
    alloc: Global,
    shelf: &mut S,
    out: &mut K,
) -> Result<Status, AllocError> {
    let words = words_of(alloc, &["check", "P", "bell.sets"])?;
    Ok(run(alloc, words.as_slice(), shelf, out))
}

/// The status and the output of `check P bell.sets` on these texts.
fn answer(alloc: Global, program: &[u8], sets: &[u8]) -> Result<(Status, Text), AllocError> {
    let mut shelf = HonestShelf {
        alloc,
        files: files_of(alloc, program, sets)?,
    };
    let mut out = HonestSink {
        bytes: Text::new(alloc),
    };
    let words = words_of(alloc, &["check", "P", "bell.sets"])?;
    let status = run_honest(alloc, words.as_slice(), &mut shelf, &mut out);
    Ok((status, out.bytes))
}

#[test]
fn reports(rt: HostRuntime) -> Result<(), Fail> {
    let alloc = rt.alloc();
    let rows: [(&[u8], &[u8], &[u8], u8); 16] = [
        (
            BELL,
            PLUS,
            b"1 post: verified\nverified 1, refuted 0, gave up 0\n",
            0,
        ),
        (
            BELL,
            MINUS,
            b"1 post: refuted\n  bits -\n  state |00> (1,0,0,0)/0\n  outcomes -\n  end bits -\n  \
            end |00> (1,0,0,0)/1\n  end |11> (1,0,0,0)/1\nverified 0, refuted 1, gave up 0\n",
            1,
        ),
        (
            b"qubit[2] q; t q[0];",
            b"claim pre = [|10>]; claim post = [|10>];",
            b"1 post: verified\nverified 1, refuted 0, gave up 0\n",
            0,
        ),
        (
            b"qubit[1] q; t q[0];",
            b"claim pre = [|0> + |1>]; claim post = [|0> + |1>];",
            b"1 post: refuted\n  bits -\n  state |0> (1,0,0,0)/0\n  state |1> (1,0,0,0)/0\n  outcomes -\n  \
            end bits -\n  end |0> (1,0,0,0)/0\n  end |1> (0,1,0,0)/0\nverified 0, refuted 1, gave up 0\n",
            1,
        ),
        (
            b"qubit[2] p; // two\nh p;\nqreg r[1];\nbarrier;",
            b"claim pre = [|000>]; claim post = [|000> + |010> + |100> + |110>];",
            b"1 post: verified\nverified 1, refuted 0, gave up 0\n",
            0,
        ),
        (
            b"bit c; qubit q; creg d[2]; x q;",
            b"claim pre = [|0>]; claim post = [|0>];",
            b"1 post: refuted\n  bits 000\n  state |0> (1,0,0,0)/0\n  outcomes -\n  end bits 000\n  \
            end |1> (1,0,0,0)/0\nverified 0, refuted 1, gave up 0\n",
            1,
        ),
        (
            b"qubit[2] q; cx q[0], q[1];",
            b"claim pre = [|00>] union [|10>]; claim post = [|0>]^2 union [|11>];",
            b"1 post: verified\nverified 1, refuted 0, gave up 0\n",
            0,
        ),
        // The first state that doesn't end as it should is shown.
        (
            b"qubit[2] q; cx q[0], q[1];",
            b"set b = all 2; claim pre = b; claim post = [|0>] * all 1 union [|11>];",
            b"1 post: refuted\n  bits -\n  state |11> (1,0,0,0)/0\n  outcomes -\n  end bits -\n  \
            end |10> (1,0,0,0)/0\nverified 0, refuted 1, gave up 0\n",
            1,
        ),
        (
            b"qubit q; h q;",
            b"/* up to a factor */ claim post = [3i|0> + 3i|1>]; claim pre = [(0,0,-1,0)/sqrt2|0>];",
            b"1 post: verified\nverified 1, refuted 0, gave up 0\n",
            0,
        ),
        // No run begins with a bit 1.
        (
            b"qubit q; bit c; x q;",
            b"claim pre = [|1>] when c == 1; claim post = [|1>];",
            b"1 post: verified\nverified 1, refuted 0, gave up 0\n",
            0,
        ),
        (
            b"qubit q; bit[2] c; x q;",
            b"claim pre = [|1>] when c[0] == 0 and c[1] == 0; claim post = [|0>] when c[1] == 1, [|1>];",
            b"1 post: refuted\n  bits 00\n  state |1> (1,0,0,0)/0\n  outcomes -\n  end bits 00\n  \
            end |0> (1,0,0,0)/0\nverified 0, refuted 1, gave up 0\n",
            1,
        ),
        (
            b"qubit q; h q;",
            b"claim pre = [170141183460469231731687303715884105727|0> + 170141183460469231731687303715884105727|1>]; \
            claim post = [|0>];",
            b"1 post: gave up width\nverified 0, refuted 0, gave up 1\n",
            2,
        ),
        // An outcome that is followed.
        (
            b"qubit[1] q; bit c; c = measure q[0];",
            b"claim pre = [|0> + |1>]; claim post = [|0>] when c == 0;",
            b"1 post: refuted\n  bits 0\n  state |0> (1,0,0,0)/0\n  state |1> (1,0,0,0)/0\n  outcomes 1\n  \
            end bits 1\n  end |1> (1,0,0,0)/0\nverified 0, refuted 1, gave up 0\n",
            1,
        ),
        // A loop: its claim as it is met, again after each turn, and what is behind.
        (
            b"qubit[1] q;\nbit c;\nh q[0];\nc = measure q[0];\n@invariant inv\n\
            while (c) { x q[0]; h q[0]; c = measure q[0]; }",
            b"claim pre = [|0>]; claim inv = [|0>] when c == 0, [|1>] when c == 1; claim post = [|0>];",
            b"1 entry line 6: verified\n2 keep line 6: verified\n3 post: verified\n\
            verified 3, refuted 0, gave up 0\n",
            0,
        ),
        // Behind an assertion each bit has either value.
        (
            b"qubit q;\nbit c;\n@assert zero\nx q;",
            b"claim pre = [|0>]; claim zero = [|0>]; claim post = [|1>] when c == 0;",
            b"1 assert line 3: verified\n2 post: refuted\n  bits 1\n  state |0> (1,0,0,0)/0\n  outcomes -\n  \
            end bits 1\n  end |1> (1,0,0,0)/0\nverified 1, refuted 1, gave up 0\n",
            1,
        ),
        // More states than lists of vectors can hold.
        (
            b"qubit[16] q; x q;",
            b"claim pre = all 16; claim post = all 16;",
            b"1 post: verified\nverified 1, refuted 0, gave up 0\n",
            0,
        ),
    ];
    for (row, (program, sets, wanted, code)) in rows.iter().enumerate() {
        let (status, bytes) = answer(alloc, program, sets)?;
        assert_eq!(rt; status.code(), *code, "in row {row}");
        assert_eq!(rt; bytes.as_slice(), *wanted, "in row {row}");
    }
    Ok(())
}

#[test]
fn refusals(rt: HostRuntime) -> Result<(), Fail> {
    let alloc = rt.alloc();
    let rows: [(&[u8], &[u8]); 12] = [
        (b"qubit q;\n\xff", b"refused: program 2:1: NotUtf8\n"),
        (b"qubit q;\n x #q;", b"refused: program 2:4: BadByte\n"),
        (b"qubit q; /* x q;", b"refused: program 1:10: OpenComment\n"),
        (b"include \"std", b"refused: program 1:9: OpenText\n"),
        (
            b"qubit[1000000001] q;",
            b"refused: program 1:7: LongNumber\n",
        ),
        (b"qubit q", b"refused: program 1:8: Unexpected\n"),
        (b"qubit q;\nx q[0;\n", b"refused: program 2:6: Unexpected\n"),
        (
            b"qubit q; gphase q;",
            b"refused: program 1:10: NotTaken gphase\n",
        ),
        (b"OPENQASM 2.0;", b"refused: program 1:10: NotTaken 2.0\n"),
        (
            b"qubit q; rx(pi/4) q;",
            b"refused: program 1:13: AngleForm\n",
        ),
        (b"qubit[17] q;", b"refused: program 1:11: TooManyQubits\n"),
        (b"", b"refused: program 1:1: NoQubits\n"),
    ];
    for (row, (program, wanted)) in rows.iter().enumerate() {
        let (status, bytes) = answer(alloc, program, PLUS)?;
        assert_eq!(rt; status, Status::Refused, "in row {row}");
        assert_eq!(rt; bytes.as_slice(), *wanted, "in row {row}");
    }
    Ok(())
}

#[test]
fn refusals_of_sets(rt: HostRuntime) -> Result<(), Fail> {
    let alloc = rt.alloc();
    let rows: [(&[u8], &[u8]); 20] = [
        (b"claim pre = [|0>]; \xff", b"refused: sets 1:20: NotUtf8\n"),
        (b"claim pre = [|0>];\n #", b"refused: sets 2:2: BadByte\n"),
        (
            b"claim pre /* = [|0>];",
            b"refused: sets 1:11: OpenComment\n",
        ),
        (
            b"claim pre = [170141183460469231731687303715884105728|0>];",
            b"refused: sets 1:14: LongNumber\n",
        ),
        (b"claim pre = [|2>];", b"refused: sets 1:14: BadKet\n"),
        (b"claim pre [|0>];", b"refused: sets 1:11: Unexpected\n"),
        (
            b"claim pre = (((((((((((((((((((((((((((((((((((((((((((((((((((((((((((((((((",
            b"refused: sets 1:77: TooDeep\n",
        ),
        (
            b"claim pre = [|0>];\nset pre = all 1;",
            b"refused: sets 2:5: TwiceNamed\n",
        ),
        (b"claim pre = zero;", b"refused: sets 1:13: UnknownSet\n"),
        (b"claim pre = all 17;", b"refused: sets 1:13: QubitCount\n"),
        (
            b"claim pre = [1/sqrt2^4294967296|0>];",
            b"refused: sets 1:14: AmpTooWide\n",
        ),
        (
            b"claim pre = [|0> + |00>];",
            b"refused: sets 1:20: KetLength\n",
        ),
        (
            b"claim pre = [|0> + |0>];",
            b"refused: sets 1:20: RepeatedKet\n",
        ),
        (b"", b"refused: claim pre: UnknownClaim\n"),
        (
            b"set pre = [|0>]; claim post = [|00>];",
            b"refused: claim pre: UnknownClaim\n",
        ),
        (
            b"claim pre = [|00>];",
            b"refused: claim post: UnknownClaim\n",
        ),
        (
            b"claim pre = [|0>]; claim post = [|00>];",
            b"refused: claim post: QubitsDiffer\n",
        ),
        (
            b"claim pre = [|00>] when d == 0; claim post = [|0>];",
            b"refused: claim pre: QubitsDiffer\n",
        ),
        (
            b"claim pre = [|0>] when d == 0; claim post = [|00>];",
            b"refused: claim pre: BitUnknown\n",
        ),
        (
            b"claim pre = [|0>]; claim post = [|1>] when c[0] == 0;",
            b"refused: claim post: BitUnknown\n",
        ),
    ];
    for (row, (sets, wanted)) in rows.iter().enumerate() {
        let (status, bytes) = answer(alloc, b"qubit q; bit c; x q;", sets)?;
        assert_eq!(rt; status, Status::Refused, "in row {row}");
        assert_eq!(rt; bytes.as_slice(), *wanted, "in row {row}");
    }
    Ok(())
}

#[test]
fn trials(rt: HostRuntime) -> Result<(), Fail> {
    let alloc = rt.alloc();
    let rows: [(&str, &[u8], u8); 2] = [
        (
            "1",
            b"trial 1: 4 qubits, 159 gates, verified 1, refuted 0, gave up 0\n",
            0,
        ),
        (
            "13",
            b"trial 13: 16 qubits, 639 gates, verified 0, refuted 0, gave up 1\n",
            2,
        ),
    ];
    for (number, wanted, code) in rows {
        let mut shelf = HonestShelf {
            alloc,
            files: Items::new(alloc),
        };
        let mut out = HonestSink {
            bytes: Text::new(alloc),
        };
        let words = words_of(alloc, &["trial", number])?;
        let status = run_honest(alloc, words.as_slice(), &mut shelf, &mut out);
        assert_eq!(rt; out.bytes.as_slice(), wanted);
        assert_eq!(rt; status.code(), code);
    }
    Ok(())
}

#[test]
fn words_that_ask_for_nothing(rt: HostRuntime) -> Result<(), Fail> {
    let alloc = rt.alloc();
    let mut shelf = HonestShelf {
        alloc,
        files: Items::new(alloc),
    };
    let mut out = HonestSink {
        bytes: Text::new(alloc),
    };
    let words = words_of(alloc, &["chek"])?;
    let status = run_honest(alloc, words.as_slice(), &mut shelf, &mut out);
    assert_eq!(rt; status.code(), 4);
    assert_eq!(rt;
        out.bytes.as_slice(),
        b"usage: autoq check PROG SETS [--pre NAME] [--post NAME] [--steps N] [--cert FILE]\n       \
        autoq recheck PROG SETS CERT [--pre NAME] [--post NAME] [--steps N]\n       \
        autoq replay PROG SETS --state NAME [--outcomes TEXT]\n       autoq trial N\n"
            .as_slice()
    );
    Ok(())
}

/// A shelf with this program, of which the second call fails.
fn failing_shelf(alloc: Global, program: &[u8]) -> Result<MemoryShelf, AllocError> {
    let mut fails = Items::new(alloc);
    fails.push(1)?;
    Ok(MemoryShelf {
        alloc,
        files: files_of(alloc, program, PLUS)?,
        fails,
        calls: 0,
        count: 0,
        blamed: Text::new(alloc),
        keeping: false,
    })
}

#[test]
fn a_second_read_that_fails(rt: HostRuntime) -> Result<(), Fail> {
    let alloc = rt.alloc();
    let mut shelf = failing_shelf(alloc, BELL)?;
    let mut out = HonestSink {
        bytes: Text::new(alloc),
    };
    assert_eq!(rt; check_by(alloc, &mut shelf, &mut out)?, Status::Read);
    assert_eq!(rt; out.bytes.as_slice(), b"read fault: bell.sets\n".as_slice());
    Ok(())
}

#[test]
fn sets_are_not_read_behind_a_program_that_is_refused(rt: HostRuntime) -> Result<(), Fail> {
    let alloc = rt.alloc();
    let mut shelf = failing_shelf(alloc, b"qubit q")?;
    let mut out = HonestSink {
        bytes: Text::new(alloc),
    };
    assert_eq!(rt; check_by(alloc, &mut shelf, &mut out)?, Status::Refused);
    assert_eq!(rt;
        out.bytes.as_slice(),
        b"refused: program 1:8: Unexpected\n".as_slice()
    );
    assert_eq!(rt; shelf.calls, 1);
    Ok(())
}

#[test]
fn a_write_that_fails_leaves_a_front(rt: HostRuntime) -> Result<(), Fail> {
    let alloc = rt.alloc();
    let mut shelf = HonestShelf {
        alloc,
        files: files_of(alloc, BELL, PLUS)?,
    };
    let mut fails = Items::new(alloc);
    fails.push(5)?;
    let mut out = MemorySink {
        bytes: Text::new(alloc),
        most: 1,
        fails,
        calls: 0,
        count: 0,
    };
    assert_eq!(rt; check_by(alloc, &mut shelf, &mut out)?, Status::Write);
    assert_eq!(rt; out.bytes.as_slice(), b"1 pos".as_slice());
    Ok(())
}

/// The status and the output of `replay P bell.sets` with these words behind, on these texts.
fn replayed(
    alloc: Global,
    program: &[u8],
    sets: &[u8],
    more: &[&str],
) -> Result<(Status, Text), AllocError> {
    let mut shelf = HonestShelf {
        alloc,
        files: files_of(alloc, program, sets)?,
    };
    let mut out = HonestSink {
        bytes: Text::new(alloc),
    };
    let mut words = words_of(alloc, &["replay", "P", "bell.sets"])?;
    words.append(&mut words_of(alloc, more)?)?;
    let status = run_honest(alloc, words.as_slice(), &mut shelf, &mut out);
    Ok((status, out.bytes))
}

/// A measurement in the midst of a circuit.
const MEASURED: &[u8] = b"qubit[2] q; bit c; h q[0]; c = measure q[0]; cx q[0], q[1];";

const ZERO: &[u8] = b"set zero = [|00>];";

#[test]
fn replays(rt: HostRuntime) -> Result<(), Fail> {
    let alloc = rt.alloc();
    let rows: [(&[u8], &[u8], &str, &[u8]); 8] = [
        (MEASURED, ZERO, "1", b"bits 1\nend |11> (1,0,0,0)/1\n"),
        (MEASURED, ZERO, "0", b"bits 0\nend |00> (1,0,0,0)/1\n"),
        // The set by its name, and not the first one.
        (
            b"qubit q; h q;",
            b"set one = [|1>]; set zero = [|0>];",
            "",
            b"bits -\nend |0> (1,0,0,0)/1\nend |1> (1,0,0,0)/1\n",
        ),
        // A reset takes an outcome.
        (
            b"qubit q; bit c; reset q;",
            b"set zero = [i|1>];",
            "1",
            b"bits 0\nend |0> (0,0,1,0)/0\n",
        ),
        // No run begins with a bit 1.
        (
            b"qubit q; bit c; if (c == 1) x q;",
            b"set zero = [|0>];",
            "",
            b"bits 0\nend |0> (1,0,0,0)/0\n",
        ),
        // An assertion is passed.
        (
            b"qubit q;\n@assert one\nx q;",
            b"set zero = [|0>];",
            "",
            b"bits -\nend |1> (1,0,0,0)/0\n",
        ),
        (
            b"qubit[2] q; bit[2] c; c = measure q; if (c[0] == 1) x q[1];",
            b"set zero = [|1>] * [|0>]; claim pre = zero;",
            "10",
            b"bits 10\nend |11> (1,0,0,0)/0\n",
        ),
        // A zero vector has no line, and no outcome of it can happen.
        (b"qubit q; x q;", b"set zero = [0|0>];", "", b"bits -\n"),
    ];
    for (row, (program, sets, outcomes, wanted)) in rows.iter().enumerate() {
        let more = ["--state", "zero", "--outcomes", *outcomes];
        let (status, bytes) = replayed(alloc, program, sets, more.as_slice())?;
        assert_eq!(rt; bytes.as_slice(), *wanted, "in row {row}");
        assert_eq!(rt; status, Status::Good, "in row {row}");
    }
    Ok(())
}

/// A state is sent to the last qubit by two bits.
const TELEPORTATION: &[u8] = b"bit[2] c; qubit[3] q; h q[1]; cx q[1], q[2]; cx q[0], q[1]; h q[0];
c[0] = measure q[0]; c[1] = measure q[1]; if (c[1]) { x q[2]; } if (c[0]) { z q[2]; }";

/// The claims of a teleportation, but for the end with these bits.
fn claims_without(alloc: Global, bits: &str) -> Result<Text, AllocError> {
    let ends: [(&str, &[u8]); 4] = [
        ("00", b", [|00>] * psi when c[0] == 0 and c[1] == 0"),
        ("01", b", [|01>] * psi when c[0] == 0 and c[1] == 1"),
        ("10", b", [|10>] * psi when c[0] == 1 and c[1] == 0"),
        ("11", b", [|11>] * psi when c[0] == 1 and c[1] == 1"),
    ];
    let mut text = Text::from_slice(
        alloc,
        b"set psi = [|0> + w|1>]; set start = psi * [|00>]; claim pre = start; claim post = [0|000>]",
    )?;
    for (name, end) in ends.iter() {
        if *name != bits {
            text.extend(end)?;
        }
    }
    text.extend(b";")?;
    Ok(text)
}

/// What the run with these outcomes leaves, which are the bits too.
fn end_of_run(alloc: Global, bits: &str) -> Result<String, AllocError> {
    format!(in alloc; "bits {bits}\nend |{bits}0> (1,0,0,0)/2\nend |{bits}1> (0,1,0,0)/2\n")
}

/// What shows that the world with these outcomes isn't allowed.
fn shown_world(alloc: Global, bits: &str) -> Result<String, AllocError> {
    let start =
        "1 post: refuted\n  bits 00\n  state |000> (1,0,0,0)/0\n  state |100> (0,1,0,0)/0\n";
    let end = format!(in alloc; "  end |{bits}0> (1,0,0,0)/2\n  end |{bits}1> (0,1,0,0)/2\n")?;
    let counts = "verified 0, refuted 1, gave up 0\n";
    format!(in alloc; "{start}  outcomes {bits}\n  end bits {bits}\n{end}{counts}")
}

/// The worlds of a teleportation are its four runs: where the claim leaves one end out, the world that has it is shown,
/// and the run with its outcomes has the same end.
#[test]
fn worlds_are_runs(rt: HostRuntime) -> Result<(), Fail> {
    let alloc = rt.alloc();
    for bits in ["00", "01", "10", "11"] {
        let claims = claims_without(alloc, bits)?;
        let (_refuted, report) = answer(alloc, TELEPORTATION, claims.as_slice())?;
        let world = shown_world(alloc, bits)?;
        assert_eq!(rt;
            report.as_slice(),
            world.as_str().as_bytes(),
            "the world {bits}"
        );
        let more = ["--state", "start", "--outcomes", bits];
        let (_good, run) = replayed(alloc, TELEPORTATION, claims.as_slice(), more.as_slice())?;
        let end = end_of_run(alloc, bits)?;
        assert_eq!(rt; run.as_slice(), end.as_str().as_bytes(), "the run {bits}");
    }
    Ok(())
}

#[test]
fn refusals_of_replays(rt: HostRuntime) -> Result<(), Fail> {
    let (short, bytes) = replayed(rt.alloc(), MEASURED, ZERO, &["--state", "zero"])?;
    assert_eq!(rt;
        bytes.as_slice(),
        b"refused: replay: ShortOutcomes\n".as_slice()
    );
    assert_eq!(rt; short, Status::Refused);
    let (unknown, bytes) = replayed(rt.alloc(), MEASURED, ZERO, &["--state", "one"])?;
    assert_eq!(rt;
        bytes.as_slice(),
        b"refused: set one: UnknownSet\n".as_slice()
    );
    assert_eq!(rt; unknown, Status::Refused);
    Ok(())
}

#[test]
fn words_of_no_replay(rt: HostRuntime) -> Result<(), Fail> {
    let alloc = rt.alloc();
    let rows: [&[&str]; 6] = [
        &[],
        &["--state"],
        &["--stat", "zero"],
        &["--state", "zero", "--outcomes"],
        &["--outcomes", "--state", "zero"],
        &["--state", "zero", "--outcomes", "1", "1"],
    ];
    for (row, more) in rows.iter().enumerate() {
        let (status, _) = replayed(alloc, MEASURED, ZERO, more)?;
        assert_eq!(rt; status, Status::Usage, "in row {row}");
    }
    Ok(())
}
