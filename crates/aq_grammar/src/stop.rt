use std::alloc::AllocError;

/// Where a reader of tokens stopped: for want of memory, or with a fault, before the tokens that are left.
#[derive(Clone, Copy, Debug)]
pub enum Stop<'a, T, F> {
    Memory,
    At(F, &'a [T]),
}

impl<'a, T, F> From<AllocError> for Stop<'a, T, F> {
    ghost use Rattle.std.specs.Prelude.{◌≡◌};
    ghost use Rattle.aq_grammar.specs.declared.stop.Stop.TheVariants.{Memory};

    ghost from_gives = { λ _ e. e ≡ Memory };

    fn from(_error: AllocError) -> Stop<'a, T, F> {
        Stop::Memory
    }
}
