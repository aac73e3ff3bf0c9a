//! Gates of trials, and their lines.
ghost use Rattle.std.specs.Prelude.{◌≡◌, IfOk};
ghost use Rattle.std.specs.String.{string_bytes};
ghost use Rattle.aq_trial.specs.Trials.{line, undoing};

use std::alloc::{AllocError, Global};

/// A gate of a trial, on qubits by their numbers, the target last.
#[derive(Clone, Copy, Debug)]
pub(crate) enum Gate {
    H(u32),
    T(u32),
    X(u32),
    Cx(u32, u32),
    Ccx(u32, u32, u32),
}

/// The line of a gate.
pub(crate) fn line(alloc: Global, gate: Gate) -> Result<String, AllocError>
    ensures { IfOk result (λ text. string_bytes text ≡ line gate) }
{
    match gate {
        Gate::H(a) => format!(in alloc; "h q[{a}];\n"),
        Gate::T(a) => format!(in alloc; "t q[{a}];\n"),
        Gate::X(a) => format!(in alloc; "x q[{a}];\n"),
        Gate::Cx(a, b) => format!(in alloc; "cx q[{a}], q[{b}];\n"),
        Gate::Ccx(a, b, c) => format!(in alloc; "ccx q[{a}], q[{b}], q[{c}];\n"),
    }
}

/// The line of the gate that undoes a gate.
pub(crate) fn undoing(alloc: Global, gate: Gate) -> Result<String, AllocError>
    ensures { IfOk result (λ text. string_bytes text ≡ undoing gate) }
{
    match gate {
        Gate::T(a) => format!(in alloc; "tdg q[{a}];\n"),
        gate => line(alloc, gate),
    }
}
