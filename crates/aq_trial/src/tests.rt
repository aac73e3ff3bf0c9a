use crate::trial_texts;
use std::test::Fail;

#[test]
fn texts_of_trials(rt: HostRuntime) -> Result<(), Fail> {
    let heads: [(u32, &[u8]); 2] = [
        (1, b"OPENQASM 3.0;\nqubit[4] q;\ncx q[2], q[0];\n"),
        (4, b"OPENQASM 3.0;\nqubit[7] q;\nx q[2];\n"),
    ];
    for (number, head) in heads {
        assert!(rt; 1 <= number && number <= 13);
        let texts = trial_texts(rt.alloc(), number)?;
        assert!(rt; texts.program.as_slice().starts_with(head));
    }
    let texts = trial_texts(rt.alloc(), 1)?;
    assert!(rt; texts.sets.is(b"claim pre = all 2 * [|00>];\nclaim post = all 2 * [|00>];\n"));
    Ok(())
}
