use aq_plain::Vector;
use sqlite_items::Items;

/// Why an obligation was given up.
#[derive(Clone, Copy, Debug, PartialEq, Eq)]
pub enum Why {
    /// A number that the obligation needs doesn't fit.
    Width,
    /// The limit of steps is below the number that is enough for the obligation.
    Steps,
    /// Out of memory.
    Memory,
}

/// A state of an obligation's assumption, outcomes, and the end of the run from that state under these outcomes, which
/// the goal doesn't allow. When it is the one that an obligation has is `IsRefutedBy` of the specs.
#[derive(Debug, Drop)]
pub struct Refutation {
    /// The bits at the start, by their numbers.
    pub bits: Items<bool>,
    /// The vector at the start.
    pub state: Vector,
    /// The outcomes of the measurements and resets, in order.
    pub outcomes: Items<bool>,
    /// The bits at the end, by their numbers.
    pub end_bits: Items<bool>,
    /// The vector at the end, not divided by its length.
    pub end: Vector,
}

/// What is said of an obligation. When it may be said is `IsJustified` of the specs.
#[derive(Debug, Drop)]
pub enum Verdict {
    /// The obligation is true.
    Verified,
    /// The obligation isn't true, as this shows.
    Refuted(Refutation),
    /// Nothing is said of the obligation, for this reason.
    GaveUp(Why),
}
