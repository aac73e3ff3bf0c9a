ghost use Rattle.std.specs.Prelude.{◌≡◌};
ghost use Rattle.std.specs.Str.{bytes_eq};
ghost use Rattle.aq_parse.specs.Words.{
  lookup,
  statement_words,
  other_words,
  is_one_of,
  gate_words,
  box_words,
  type_words,
  unit_words,
  flow_words,
  foreign_mark,
  reserved,
  is_three,
  is_stdgates,
};

use crate::mark::Mark;

fn is(text: &[u8], word: &str) -> bool
    ensures { result ≡ bytes_eq text.now word.now }
{
    text == word.as_bytes()
}

#[tactic(auto, unfolding(crate::specs::Words::statement_words))]
fn statement_word(text: &[u8]) -> Option<Mark>
    ensures { result ≡ lookup text.now statement_words }
{
    if is(text, "OPENQASM") {
        Some(Mark::Openqasm)
    } else if is(text, "include") {
        Some(Mark::Include)
    } else if is(text, "qubit") {
        Some(Mark::Qubit)
    } else if is(text, "qreg") {
        Some(Mark::Qreg)
    } else if is(text, "bit") {
        Some(Mark::Bit)
    } else if is(text, "creg") {
        Some(Mark::Creg)
    } else if is(text, "measure") {
        Some(Mark::Measure)
    } else if is(text, "reset") {
        Some(Mark::Reset)
    } else if is(text, "barrier") {
        Some(Mark::Barrier)
    } else {
        None
    }
}

#[tactic(auto, unfolding(crate::specs::Words::other_words))]
fn other_word(text: &[u8]) -> Option<Mark>
    ensures { result ≡ lookup text.now other_words }
{
    if is(text, "if") {
        Some(Mark::If)
    } else if is(text, "else") {
        Some(Mark::Else)
    } else if is(text, "while") {
        Some(Mark::While)
    } else if is(text, "pi") {
        Some(Mark::Pi)
    } else if is(text, "true") {
        Some(Mark::True)
    } else if is(text, "false") {
        Some(Mark::False)
    } else {
        None
    }
}

#[tactic(auto, unfolding(crate::specs::Words::gate_words))]
fn is_gate_word(text: &[u8]) -> bool
    ensures { result ≡ is_one_of gate_words text.now }
{
    is(text, "gate")
        || is(text, "ctrl")
        || is(text, "negctrl")
        || is(text, "inv")
        || is(text, "pow")
        || is(text, "gphase")
        || is(text, "for")
}

#[tactic(auto, unfolding(crate::specs::Words::box_words))]
fn is_box_word(text: &[u8]) -> bool
    ensures { result ≡ is_one_of box_words text.now }
{
    is(text, "def")
        || is(text, "extern")
        || is(text, "delay")
        || is(text, "box")
        || is(text, "defcal")
        || is(text, "cal")
        || is(text, "defcalgrammar")
}

#[tactic(auto, unfolding(crate::specs::Words::type_words))]
fn is_type_word(text: &[u8]) -> bool
    ensures { result ≡ is_one_of type_words text.now }
{
    is(text, "input")
        || is(text, "output")
        || is(text, "let")
        || is(text, "const")
        || is(text, "int")
        || is(text, "uint")
        || is(text, "float")
}

#[tactic(auto, unfolding(crate::specs::Words::unit_words))]
fn is_unit_word(text: &[u8]) -> bool
    ensures { result ≡ is_one_of unit_words text.now }
{
    is(text, "angle")
        || is(text, "bool")
        || is(text, "complex")
        || is(text, "duration")
        || is(text, "stretch")
        || is(text, "array")
        || is(text, "return")
}

#[tactic(auto, unfolding(crate::specs::Words::flow_words))]
fn is_flow_word(text: &[u8]) -> bool
    ensures { result ≡ is_one_of flow_words text.now }
{
    is(text, "break")
        || is(text, "continue")
        || is(text, "end")
        || is(text, "switch")
        || is(text, "pragma")
}

fn foreign(text: &[u8]) -> Option<Mark>
    ensures { result ≡ foreign_mark text.now }
{
    if is_gate_word(text)
        || is_box_word(text)
        || is_type_word(text)
        || is_unit_word(text)
        || is_flow_word(text)
    {
        Some(Mark::Foreign)
    } else {
        None
    }
}

/// The mark of a reserved word.
#[tactic(auto, unfolding(crate::specs::Words::reserved))]
pub(crate) fn reserved_word(text: &[u8]) -> Option<Mark>
    ensures { result ≡ reserved text.now }
{
    if let Some(mark) = statement_word(text) {
        return Some(mark);
    }
    if let Some(mark) = other_word(text) {
        return Some(mark);
    }
    foreign(text)
}

/// Whether the part before the point of a decimal is `3`.
pub(crate) fn is_version_three(text: &[u8]) -> bool
    ensures { result ≡ is_three text.now }
{
    matches!(text, [b'3', b'.', ..])
}

/// Whether this is the library of gates, in quotes of either kind.
pub(crate) fn is_library(text: &[u8]) -> bool
    ensures { result ≡ is_stdgates text.now }
{
    is(text, "\"stdgates.inc\"") || is(text, "'stdgates.inc'")
}
