ghost use Rattle.std.specs.Prelude.{◌≡◌};
ghost use Rattle.std.specs.Str.{bytes_eq};
ghost use Rattle.aq_set_parse.specs.Words.{reserved};

use crate::mark::SetMark;

fn is(text: &[u8], word: &str) -> bool
    ensures { result ≡ bytes_eq text.now word.now }
{
    text == word.as_bytes()
}

/// The mark of a reserved word.
#[tactic(auto, unfolding(crate::specs::Words::reserved, crate::specs::Words::reserved_words))]
pub(crate) fn reserved_word(text: &[u8]) -> Option<SetMark>
    ensures { result ≡ reserved text.now }
{
    if is(text, "set") {
        Some(SetMark::Set)
    } else if is(text, "claim") {
        Some(SetMark::Claim)
    } else if is(text, "when") {
        Some(SetMark::When)
    } else if is(text, "and") {
        Some(SetMark::And)
    } else if is(text, "union") {
        Some(SetMark::Union)
    } else if is(text, "all") {
        Some(SetMark::All)
    } else if is(text, "w") {
        Some(SetMark::Omega)
    } else if is(text, "i") {
        Some(SetMark::Imaginary)
    } else if is(text, "sqrt2") {
        Some(SetMark::Root)
    } else {
        None
    }
}
