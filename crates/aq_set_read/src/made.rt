/// An expression that was put together: its position, and its number of qubits.
#[derive(Clone, Copy, Debug, PartialEq, Eq)]
pub(crate) struct Made {
    pub(crate) expr: u32,
    pub(crate) qubits: u32,
}
