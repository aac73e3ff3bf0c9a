ghost use Rattle.std.specs.Prelude.{◌≡◌};
ghost use Rattle.aq_top.specs.Codes.{code_of};

/// How a run of the program ends.
#[derive(Clone, Copy, Debug, PartialEq, Eq)]
pub enum Status {
    /// Every verdict is verified, or a run was replayed to its end.
    Good,
    /// Some verdict is refuted.
    Refuted,
    /// No verdict is refuted, and some obligation was given up.
    GaveUp,
    /// A text is refused by name, or is too long.
    Refused,
    /// The words aren't a command.
    Usage,
    /// A file could not be read.
    Read,
    /// The output could not be written.
    Write,
    /// Memory was wanting outside a verdict.
    Memory,
}

impl Status {
    /// The exit status, from 0 to 7.
    pub fn code(self) -> u8
        ensures { result ≡ code_of self }
    {
        match self {
            Status::Good => 0,
            Status::Refuted => 1,
            Status::GaveUp => 2,
            Status::Refused => 3,
            Status::Usage => 4,
            Status::Read => 5,
            Status::Write => 6,
            Status::Memory => 7,
        }
    }
}
