//! The two texts of a trial.
ghost use Rattle.std.specs.Prelude.{◌≡◌, ◌≤◌, ◌++◌, IfOk, OnOk};
ghost use Rattle.aq_trial.specs.Trials.{lines, program_text, sets_text, trial_gates, trial_qubits, undone, zeros};

use crate::draws::draw;
use crate::gates::{Gate, line, undoing};
use aq_lex::Text;
use std::alloc::{AllocError, Global};

/// What a trial checks.
#[derive(Debug, Drop)]
pub struct TrialTexts {
    /// The program's text.
    pub program: Text,
    /// The text of its sets.
    pub sets: Text,
    /// How many qubits the program has.
    pub qubits: u32,
}

/// Adds the lines of gates.
fn add_lines(alloc: Global, text: &mut Text, gates: &[Gate]) -> Result<(), AllocError>
    ensures { OnOk result (text.new ≡ text.old ++ lines gates.now) }
{
    if let [first, rest @ ..] = gates {
        let words = line(alloc, *first)?;
        text.extend(words.as_bytes())?;
        add_lines(alloc, text, rest)?;
    }
    Ok(())
}

/// Adds the lines that undo gates, the last one's first.
fn add_undoing(alloc: Global, text: &mut Text, gates: &[Gate]) -> Result<(), AllocError>
    ensures { OnOk result (text.new ≡ text.old ++ undone gates.now) }
{
    if let [first, rest @ ..] = gates {
        add_undoing(alloc, text, rest)?;
        let words = undoing(alloc, *first)?;
        text.extend(words.as_bytes())?;
    }
    Ok(())
}

/// The text of a program that plays the gates, and undoes all but the first.
fn program_text(alloc: Global, qubits: u32, gates: &[Gate]) -> Result<Text, AllocError>
    ensures { IfOk result (λ text. text ≡ program_text qubits gates.now) }
{
    let head = format!(in alloc; "OPENQASM 3.0;\nqubit[{qubits}] q;\n")?;
    let mut text = Text::from_slice(alloc, head.as_bytes())?;
    add_lines(alloc, &mut text, gates)?;
    if let [_, rest @ ..] = gates {
        add_undoing(alloc, &mut text, rest)?;
    }
    Ok(text)
}

/// The digits of all qubits but two.
fn zeros(qubits: u32) -> &'static [u8]
    requires { (4 ≤ qubits) × (qubits ≤ 16) }
    ensures { result.now ≡ zeros qubits }
{
    &b"00000000000000"[..qubits as usize - 2]
}

/// The text of its sets: both claims are all states of the first two qubits, the others 0.
fn sets_text(alloc: Global, qubits: u32) -> Result<Text, AllocError>
    requires { (4 ≤ qubits) × (qubits ≤ 16) }
    ensures { IfOk result (λ text. text ≡ sets_text qubits) }
{
    let zeros = zeros(qubits);
    let mut text = Text::from_slice(alloc, b"claim pre = all 2 * [|")?;
    text.extend(zeros)?;
    text.extend(b">];\nclaim post = all 2 * [|")?;
    text.extend(zeros)?;
    text.extend(b">];\n")?;
    Ok(text)
}

/// The texts of a trial. The only error is want of memory.
pub fn trial_texts(alloc: Global, number: u32) -> Result<TrialTexts, AllocError>
    requires { (1 ≤ number) × (number ≤ 13) }
    ensures program { IfOk result (λ t. t.program ≡ program_text (trial_qubits number) (trial_gates number)) }
    ensures sets { IfOk result (λ t. t.sets ≡ sets_text (trial_qubits number)) }
    ensures qubits { IfOk result (λ t. t.qubits ≡ trial_qubits number) }
{
    let qubits = number + 3;
    let gates = draw(alloc, qubits, 20 * qubits, u64::from(number))?;
    Ok(TrialTexts {
        program: program_text(alloc, qubits, gates.as_slice())?,
        sets: sets_text(alloc, qubits)?,
        qubits,
    })
}
