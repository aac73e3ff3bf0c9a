//! What one statement has made of nodes so far.
ghost use Rattle.aq_symbolic.specs.Memos.{AreFresh};

use aq_gate_ops::Acting;
use aq_measure_ops::Projecting;
use std::alloc::Global;

/// What one statement has made of nodes so far: by its gate or the flip of a reset, and by the projections of both
/// outcomes. All worlds on which it is played share it.
#[derive(Drop)]
pub struct Memos {
    pub(crate) acting: Acting,
    pub(crate) zero: Projecting,
    pub(crate) other: Projecting,
}

impl Memos {
    /// Nothing is done.
    pub fn new(alloc: Global) -> Memos
        ensures { AreFresh result }
    {
        Memos {
            acting: Acting::new(alloc),
            zero: Projecting::new(alloc),
            other: Projecting::new(alloc),
        }
    }
}
