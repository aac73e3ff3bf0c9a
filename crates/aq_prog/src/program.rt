use crate::stmt::Stmt;
use aq_lex::Text;
use sqlite_items::Items;

/// A register of bits: `size` bits from the bit `first` on. `indexed` is set where it was declared with a size, so that
/// its bits go by an index.
#[derive(Debug, Drop)]
pub struct BitRegister {
    pub name: Text,
    pub first: u32,
    pub size: u32,
    pub indexed: bool,
}

/// A program: its numbers of qubits and of bits, its bit registers in the order of their declaration, the names of its
/// claims in the order of their first mention, and its statements. A statement's claim is a position in `claims`.
#[derive(Debug, Drop)]
pub struct Program {
    pub qubits: u32,
    pub bits: u32,
    pub registers: Items<BitRegister>,
    pub claims: Items<Text>,
    pub body: Items<Stmt>,
}
