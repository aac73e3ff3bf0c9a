//! The limits of programs, set files and judging, each in one place.

/// The most qubits of a program, and of an expression of a set file.
pub const MOST_QUBITS: u32 = 16;

/// The most qubits of a vector that is kept as a plain list of amplitudes.
pub const MOST_PLAIN_QUBITS: u32 = 16;

/// The most bits of a program.
pub const MOST_BITS: u32 = 32;

/// How deep bodies of statements, and parentheses of set files, may nest.
pub const MOST_NESTED: u32 = 64;

/// The most statements of a program, inner ones included.
pub const MOST_STATEMENTS: usize = 100_000;

/// The greatest factor of pi in an angle.
pub const MOST_ANGLE_FACTOR: u32 = 1_000_000;

/// The most names of a set file.
pub const MOST_NAMES: usize = 1_000;

/// The most nodes of the expressions of a set file, a term of a bracket being one.
pub const MOST_NODES: u32 = 100_000;

/// The most bytes of a program's text: 1 MiB.
pub const MOST_PROGRAM_BYTES: u64 = 1_048_576;

/// The most bytes of a set file: 4 MiB.
pub const MOST_SETS_BYTES: u64 = 4_194_304;

/// How many steps an obligation may take where nothing else is said.
pub const MOST_STEPS: u64 = 20_000_000;

/// The most steps that may be asked for an obligation.
pub const MOST_STEPS_ASKED: u64 = 1_000_000_000;

/// The most obligations of a program.
pub const MOST_OBLIGATIONS: u64 = 1_000;

/// The most statements of the fragments of all obligations together, inner ones included.
pub const MOST_FRAGMENT_STATEMENTS: u64 = 2_000_000;
