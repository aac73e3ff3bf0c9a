ghost use Rattle.std.specs.Prelude.{◌≡◌, ◌<◌, ◌≤◌, ◌^◌, IfOk};

use crate::{
    Refutation, Verdict, Why, print_replay, print_summary, print_verdict, reports, verdicts,
};
use aq_lex::Text;
use aq_obligations::{Goal, Kind};
use aq_plain::{Played, Vector};
use aq_ring::Amp;
use aq_world::{HonestSink, MemorySink, Sink};
use sqlite_items::Items;
use std::alloc::Global;
use std::test::Fail;

fn verdict_by<K: Sink>(
    alloc: Global,
    out: &mut K,
    number: u32,
    kind: Kind,
    line: u32,
    verdict: &Verdict,
) -> bool {
    let goal = Goal {
        kind,
        line,
        cases: Items::new(alloc),
    };
    print_verdict(out, number, &goal, verdict).is_ok()
}

fn summary_by<K: Sink>(out: &mut K, verified: u32, refuted: u32, gave_up: u32) -> bool {
    print_summary(out, verified, refuted, gave_up).is_ok()
}

fn replay_by<K: Sink>(out: &mut K, end: &Played) -> bool {
    print_replay(out, end).is_ok()
}

fn empty_sink(alloc: Global) -> HonestSink {
    HonestSink {
        bytes: Text::new(alloc),
    }
}

/// The basis state of the index.
fn basis(alloc: Global, qubits: u32, index: usize) -> Result<Vector, Fail>
    requires few { qubits ≤ 16 }
    requires within { index < 2 ^ qubits }
    ensures { IfOk result (λ v. v.qubits ≡ qubits) }
{
    let mut vector = Vector::zero(alloc, qubits)?;
    vector.set(index, Amp::one());
    Ok(vector)
}

#[test]
fn heads_and_short_verdicts(rt: HostRuntime) {
    let rows: [(u32, Kind, u32, Verdict, &[u8]); 7] = [
        (1, Kind::Post, 0, Verdict::Verified, b"1 post: verified\n"),
        (
            2,
            Kind::Assert,
            3,
            Verdict::Verified,
            b"2 assert line 3: verified\n",
        ),
        (
            1,
            Kind::Entry,
            7,
            Verdict::Verified,
            b"1 entry line 7: verified\n",
        ),
        (
            2,
            Kind::Keep,
            7,
            Verdict::Verified,
            b"2 keep line 7: verified\n",
        ),
        (
            10,
            Kind::Keep,
            4_000_000_000,
            Verdict::GaveUp(Why::Width),
            b"10 keep line 4000000000: gave up width\n",
        ),
        (
            4,
            Kind::Post,
            9,
            Verdict::GaveUp(Why::Memory),
            b"4 post: gave up memory\n",
        ),
        (
            1,
            Kind::Post,
            0,
            Verdict::GaveUp(Why::Steps),
            b"1 post: gave up steps\n",
        ),
    ];
    for (number, kind, line, verdict, wanted) in &rows {
        let mut out = empty_sink(rt.alloc());
        assert!(rt; verdict_by(rt.alloc(), &mut out, *number, *kind, *line, verdict));
        assert_eq!(rt; out.bytes.as_slice(), *wanted);
    }
}

#[test]
fn a_refutation_without_bits(rt: HostRuntime) -> Result<(), Fail> {
    let verdict = Verdict::Refuted(Refutation {
        bits: Items::new(rt.alloc()),
        state: basis(rt.alloc(), 1, 0)?,
        outcomes: Items::new(rt.alloc()),
        end_bits: Items::new(rt.alloc()),
        end: basis(rt.alloc(), 1, 1)?,
    });
    let mut out = empty_sink(rt.alloc());
    assert!(rt; verdict_by(rt.alloc(), &mut out, 1, Kind::Post, 0, &verdict));
    let wanted =
        b"1 post: refuted\n  bits -\n  state |0> (1,0,0,0)/0\n  outcomes -\n  end bits -\n  end |1> (1,0,0,0)/0\n";
    assert_eq!(rt; out.bytes.as_slice(), wanted.as_slice());
    Ok(())
}

#[test]
fn a_refutation_with_bits(rt: HostRuntime) -> Result<(), Fail> {
    reports();
    let mut end = Vector::zero(rt.alloc(), 2)?;
    end.set(0, Amp::from_parts([1, 0, 0, -2], 3).ok_or("first")?);
    end.set(3, Amp::from_parts([0, -15, 4, 0], 0).ok_or("last")?);
    let verdict = Verdict::Refuted(Refutation {
        bits: Items::from_slice(rt.alloc(), &[true, false, false])?,
        state: basis(rt.alloc(), 2, 1)?,
        outcomes: Items::from_slice(rt.alloc(), &[false, true])?,
        end_bits: Items::from_slice(rt.alloc(), &[false, true, true])?,
        end,
    });
    verdicts(&verdict);
    let mut out = empty_sink(rt.alloc());
    assert!(rt; verdict_by(rt.alloc(), &mut out, 3, Kind::Keep, 12, &verdict));
    let wanted =
        b"3 keep line 12: refuted\n  bits 100\n  state |01> (1,0,0,0)/0\n  outcomes 01\n  end bits 011\n  \
        end |00> (1,0,0,-2)/3\n  end |11> (0,-15,4,0)/0\n";
    assert_eq!(rt; out.bytes.as_slice(), wanted.as_slice());
    Ok(())
}

#[test]
fn the_end_of_a_replay(rt: HostRuntime) -> Result<(), Fail> {
    let end = Played {
        bits: Items::from_slice(rt.alloc(), &[false, true])?,
        vector: basis(rt.alloc(), 2, 2)?,
    };
    let mut out = empty_sink(rt.alloc());
    assert!(rt; replay_by(&mut out, &end));
    assert_eq!(rt;
        out.bytes.as_slice(),
        b"bits 01\nend |10> (1,0,0,0)/0\n".as_slice()
    );
    Ok(())
}

#[test]
fn counts(rt: HostRuntime) {
    let mut out = empty_sink(rt.alloc());
    assert!(rt; summary_by(&mut out, 12, 0, 3));
    assert_eq!(rt;
        out.bytes.as_slice(),
        b"verified 12, refuted 0, gave up 3\n".as_slice()
    );
}

#[test]
fn a_sink_that_fails_keeps_a_front(rt: HostRuntime) -> Result<(), Fail> {
    let alloc = rt.alloc();
    let mut out = MemorySink {
        bytes: Text::new(alloc),
        most: 1,
        fails: Items::from_slice(alloc, &[10])?,
        calls: 0,
        count: 0,
    };
    assert!(rt; !verdict_by(rt.alloc(), &mut out, 1, Kind::Post, 0, &Verdict::Verified));
    assert_eq!(rt; out.bytes.as_slice(), b"1 post: ve".as_slice());
    assert_eq!(rt; (out.calls, out.count), (11, 1));
    assert!(rt; summary_by(&mut out, 0, 1, 0));
    assert_eq!(rt;
        out.bytes.as_slice(),
        b"1 post: veverified 0, refuted 1, gave up 0\n".as_slice()
    );
    Ok(())
}
