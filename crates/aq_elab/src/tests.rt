use crate::elaborator::elaborate;
use crate::fault::ElabFault;
use crate::laws::{elaborations, program_texts};
use crate::program::read_program;
use aq_lex::{Place, tokens};
use aq_parse::parse;
use aq_prog::{BitRegister, Program};

/// `Memory` for what is no tree.
fn elaborated(rt: &HostRuntime, source: &[u8]) -> Result<Program, ElabFault> {
    if source.len() > 1_048_576 {
        return Err(ElabFault::Memory);
    }
    let Ok(tokens) = tokens(rt.alloc(), source) else {
        return Err(ElabFault::Memory);
    };
    let Ok(tree) = parse(rt.alloc(), &tokens) else {
        return Err(ElabFault::Memory);
    };
    elaborate(rt.alloc(), &tree)
}

fn fault(rt: &HostRuntime, source: &[u8]) -> Option<ElabFault> {
    elaborated(rt, source).err()
}

fn at(line: u32, column: u32) -> Place {
    Place { line, column }
}

/// The name of the first fault of a text.
fn first_fault(rt: &HostRuntime, source: &[u8]) -> Option<&'static str> {
    if source.len() > 1_048_576 {
        return None;
    }
    match read_program(rt.alloc(), source) {
        Ok(_) => None,
        Err(fault) => Some(fault.name()),
    }
}

// A fault of the tokens comes before one of the tree, wherever they stand, and that before one of the meaning.
#[test]
fn first_faults_of_texts(rt: HostRuntime) {
    program_texts();
    assert_eq!(rt; first_fault(&rt, b"qubit q; h q;"), None);
    assert_eq!(rt; first_fault(&rt, b"qubit q; h r;"), Some("UnknownName"));
    assert_eq!(rt;
        first_fault(&rt, b"qubit q; h r; qubit"),
        Some("Unexpected")
    );
    assert_eq!(rt; first_fault(&rt, b"qubit q; h r; qubit %"), Some("BadByte"));
    assert_eq!(rt;
        first_fault(&rt, b"qubit q; h r; qubit % \xff"),
        Some("NotUtf8")
    );
}

// That a tree has one meaning is a law, which the call cites.
#[test]
fn a_fault_stands_at_its_place(rt: HostRuntime) {
    elaborations();
    assert_eq!(rt;
        fault(&rt, b"qubit q; if (z) { reset y; }"),
        Some(ElabFault::UnknownName { at: at(1, 14) })
    );
}

const BY_INDEX: &[u8] =
    b"qubit[2] q; bit[2] c; bit d; measure q -> c; d = measure q[1]; measure q; reset q; barrier q;";

/// Whether the register has this name, first bit and size, and goes by an index.
fn is_register(register: &BitRegister, name: &[u8], first: u32, size: u32, indexed: bool) -> bool {
    register.name.is(name)
        && register.first == first
        && register.size == size
        && register.indexed == indexed
}

#[test]
fn registers_of_a_program(rt: HostRuntime) {
    let found = elaborated(&rt, BY_INDEX);
    assert!(rt; found.is_ok());
    if let Ok(program) = found {
        assert!(rt; program.qubits == 2 && program.bits == 3);
        let registers = program.registers.as_slice();
        assert_eq!(rt; registers.len(), 2);
        assert!(rt;
            registers
                .first()
                .map_or(false, |r| is_register(r, b"c", 0, 2, true))
        );
        assert!(rt;
            registers
                .last()
                .map_or(false, |r| is_register(r, b"d", 2, 1, false))
        );
    }
}

const CLAIMS: &[u8] =
    b"qubit q; bit[2] c;\n@invariant i\n@assert a\n@assert i\nwhile (!c[1]) {\n@assert b\nif (!c[0]) reset q; else measure q; }";

#[test]
fn names_of_claims(rt: HostRuntime) {
    let found = elaborated(&rt, CLAIMS);
    assert!(rt; found.is_ok());
    if let Ok(program) = found {
        let claims = program.claims.as_slice();
        assert_eq!(rt; claims.len(), 3);
        assert!(rt; claims.first().map_or(false, |claim| claim.is(b"i")));
        assert!(rt; claims.last().map_or(false, |claim| claim.is(b"b")));
    }
}
