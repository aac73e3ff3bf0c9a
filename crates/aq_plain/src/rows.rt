//! The vectors of brackets and of `all`.
ghost use Rattle.std.specs.Prelude.{◌≡◌, ◌<◌, ◌≤◌, ◌^◌, All, IfOk, length, replicate, slice_set};
ghost use Rattle.aq_ring.specs.Amplitudes.{amplitude_zero};
ghost use Rattle.aq_sets.specs.Vectors.{kets_vector, basis_vector, basis};

use aq_ring::Amp;
use aq_sets::Term;
use std::alloc::{AllocError, Global};
use std::marker::Model;

/// The amplitudes of a vector, while it is put together.
#[derive(Debug, Drop)]
pub(crate) struct Row {
    amps: Vec<Amp>,
}

impl Model for Row {
    ghost use Rattle.std.specs.Prelude.{List};
    ghost use Rattle.aq_ring.specs.Fractions.{Amplitude};

    ghost Value = { List Amplitude };

    ghost view = { λ r. r.amps.items };
}

impl Row {
    pub(crate) fn from_vec(amps: Vec<Amp>) -> Row
        ensures { result ≡ amps.items }
    {
        Row { amps }
    }

    pub(crate) fn into_vec(self) -> Vec<Amp>
        ensures { result.items ≡ self }
    {
        let Row { amps } = self;
        amps
    }

    pub(crate) fn amps(&self) -> &[Amp]
        ensures { result.now ≡ self.now }
    {
        self.amps.as_slice()
    }

    fn zeros(alloc: Global, qubits: u32) -> Result<Row, AllocError>
        requires { qubits ≤ 16 }
        ensures { IfOk result (λ r. r ≡ replicate (2 ^ qubits) amplitude_zero) }
    {
        let amps = Vec::from_elem(alloc, Amp::zero(), 1usize << qubits)?;
        Ok(Row { amps })
    }

    fn set(&mut self, index: usize, amp: Amp)
        requires { index < length self.old }
        ensures { self.new ≡ slice_set self.old index amp }
    {
        self.amps[index] = amp;
    }
}

/// Each term's amplitude at its index, and zero elsewhere. The terms are written from the last one on.
pub(crate) fn kets_row(alloc: Global, qubits: u32, terms: &[Term]) -> Result<Row, AllocError>
    requires few { qubits ≤ 16 }
    requires within { All (λ t. t.index < 2 ^ qubits) terms.now }
    ensures { IfOk result (λ r. r ≡ kets_vector qubits terms.now) }
{
    let mut row = Row::zeros(alloc, qubits)?;
    for i in (0..terms.len()).rev() {
        let term = terms[i];
        row.set(term.index as usize, term.amp);
    }
    Ok(row)
}

/// The basis vector of the index.
fn basis_row(alloc: Global, qubits: u32, index: usize) -> Result<Row, AllocError>
    requires few { qubits ≤ 16 }
    requires within { index < 2 ^ qubits }
    ensures { IfOk result (λ r. r ≡ basis_vector qubits index) }
{
    let mut row = Row::zeros(alloc, qubits)?;
    row.set(index, Amp::one());
    Ok(row)
}

/// All basis vectors, in the order of the index.
pub(crate) fn basis_rows(alloc: Global, qubits: u32) -> Result<Vec<Row>, AllocError>
    requires { qubits ≤ 16 }
    ensures { IfOk result (λ rows. rows.items ≡ basis qubits) }
{
    let mut rows = Vec::new(alloc);
    for index in 0..1usize << qubits {
        rows.push(basis_row(alloc, qubits, index)?)?;
    }
    Ok(rows)
}
