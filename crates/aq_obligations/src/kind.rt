/// What an obligation ends at.
#[derive(Clone, Copy, Debug, PartialEq, Eq)]
pub enum Kind {
    /// The program's end, where the postcondition is to hold.
    Post,
    /// An assertion.
    Assert,
    /// A loop as it is met, where its invariant is to hold for the first time.
    Entry,
    /// The end of a turn of a loop, where its invariant is to hold again.
    Keep,
}
