//! The arguments of the commands.
ghost use Rattle.std.specs.Prelude.{◌≡◌, false};
ghost use Rattle.clap.specs.Words.{rule_of};
ghost use Rattle.aq_words.specs.Parsers.{
  needed_option,
  option,
  option_or,
  positional,
  steps_option,
  trial_number,
};

use aq_base::MOST_STEPS_ASKED;
use clap::Arg;
use std::alloc::Global;

/// The greatest number of a trial.
pub const MOST_TRIAL: u32 = 13;

/// A word that must stand, at its place among such words.
pub(crate) fn positional<'a>(alloc: Global, id: &'a str) -> Arg<'a>
    ensures rule { rule_of result ≡ positional id.entry.now }
    ensures local { result.global ≡ false }
{
    Arg::new(alloc, id).required(true)
}

/// An option with a text.
pub(crate) fn option<'a>(alloc: Global, id: &'a str) -> Arg<'a>
    ensures rule { rule_of result ≡ option id.entry.now }
    ensures local { result.global ≡ false }
{
    Arg::new(alloc, id).long(id)
}

/// An option with a text, which must stand.
pub(crate) fn needed_option<'a>(alloc: Global, id: &'a str) -> Arg<'a>
    ensures rule { rule_of result ≡ needed_option id.entry.now }
    ensures local { result.global ≡ false }
{
    Arg::new(alloc, id).long(id).required(true)
}

/// An option with a text, and this one where it doesn't stand.
pub(crate) fn option_or<'a>(alloc: Global, id: &'a str, default: &'a str) -> Arg<'a>
    ensures rule { rule_of result ≡ option_or id.entry.now default.entry.now }
    ensures local { result.global ≡ false }
{
    Arg::new(alloc, id).long(id).default_value(default)
}

/// The limit of steps.
pub(crate) fn steps_option<'a>(alloc: Global) -> Arg<'a>
    ensures rule { rule_of result ≡ steps_option }
    ensures local { result.global ≡ false }
{
    let number = clap::value_parser!(u64).range(1..=MOST_STEPS_ASKED as i64);
    Arg::new(alloc, "steps")
        .long("steps")
        .value_parser(number)
        .default_value("20000000")
}

/// The number of a trial.
pub(crate) fn trial_number<'a>(alloc: Global) -> Arg<'a>
    ensures rule { rule_of result ≡ trial_number }
    ensures local { result.global ≡ false }
{
    let number = clap::value_parser!(u64).range(1..=i64::from(MOST_TRIAL));
    Arg::new(alloc, "number")
        .required(true)
        .value_parser(number)
}
