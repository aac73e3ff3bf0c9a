//! The commands, and the words that ask for them.
ghost use Rattle.std.specs.Prelude.{◌≡◌, ◌≤◌, IfOk, map};
ghost use Rattle.aq_base.specs.Limits.{most_steps_asked};
ghost use Rattle.std.specs.String.{string_bytes};
ghost use Rattle.aq_base.specs.Checks.{GivesUnless, or_refuse};
ghost use Rattle.aq_words.specs.Commands.{
  IsInRange,
  check_asked,
  check_of,
  command_asked,
  command_of,
  replay_asked,
  replay_of,
  trial_asked,
};
ghost use Rattle.aq_words.specs.Parsers.{most_trial};
ghost use Rattle.aq_words.specs.declared.command.WordsFault.TheVariants as fault;

use crate::arguments::MOST_TRIAL;
use crate::entries::{find_entries, number_of, text_of};
use crate::parsers::{check_parser, replay_parser, trial_parser};
use aq_base::MOST_STEPS_ASKED;
use std::alloc::{AllocError, Global};

/// The words of `check`.
#[derive(Debug, Drop)]
pub struct CheckWords {
    /// The name of the program's file.
    pub program: String,
    /// The name of the set file.
    pub sets: String,
    /// The name of the claim from which the program begins.
    pub pre: String,
    /// The name of the claim in which the program is to end.
    pub post: String,
    /// How many steps each obligation may take, from 1 to `MOST_STEPS_ASKED`.
    pub steps: u64,
}

/// The words of `replay`.
#[derive(Debug, Drop)]
pub struct ReplayWords {
    /// The name of the program's file.
    pub program: String,
    /// The name of the set file.
    pub sets: String,
    /// The name of the set whose vector the run begins with.
    pub state: String,
    /// The outcomes, as text: any text, where `0` and `1` are wanted.
    pub outcomes: String,
}

/// What words ask for.
#[derive(Debug, Drop)]
pub enum Command {
    /// `check PROGRAM SETS [--pre NAME] [--post NAME] [--steps N]`.
    Check(CheckWords),
    /// `replay PROGRAM SETS --state NAME [--outcomes TEXT]`.
    Replay(ReplayWords),
    /// `trial N`, with a number from 1 to `MOST_TRIAL`.
    Trial(u32),
}

/// Why words ask for nothing.
#[derive(Clone, Copy, Debug)]
pub enum WordsFault {
    /// They aren't the words of a command, or they ask for help.
    Usage,
    /// Memory ran out.
    Memory,
}

impl From<AllocError> for WordsFault {
    ghost use Rattle.std.specs.Prelude.{◌≡◌};
    ghost use Rattle.aq_words.specs.declared.command.WordsFault.TheVariants.{Memory};

    ghost from_gives = { λ _ e. e ≡ Memory };

    fn from(_error: AllocError) -> WordsFault {
        WordsFault::Memory
    }
}

/// What the words of `check` ask for.
fn read_check(alloc: Global, words: &[String]) -> Result<CheckWords, WordsFault>
    ensures words { GivesUnless fault.Memory check_of result
        (or_refuse fault.Usage (check_asked (map string_bytes words.entry.now))) }
    ensures range { IfOk result (λ w. (1 ≤ w.steps) × (w.steps ≤ most_steps_asked)) }
{
    let matches = find_entries(check_parser(alloc)?, words)?;
    match number_of(&matches, "steps", MOST_STEPS_ASKED) {
        Some(steps) => Ok(CheckWords {
            program: text_of(alloc, &matches, "program")?,
            sets: text_of(alloc, &matches, "sets")?,
            pre: text_of(alloc, &matches, "pre")?,
            post: text_of(alloc, &matches, "post")?,
            steps,
        }),
        None => Err(WordsFault::Usage),
    }
}

/// What the words of `replay` ask for.
fn read_replay(alloc: Global, words: &[String]) -> Result<ReplayWords, WordsFault>
    ensures { GivesUnless fault.Memory replay_of result
        (or_refuse fault.Usage (replay_asked (map string_bytes words.entry.now))) }
{
    let matches = find_entries(replay_parser(alloc)?, words)?;
    Ok(ReplayWords {
        program: text_of(alloc, &matches, "program")?,
        sets: text_of(alloc, &matches, "sets")?,
        state: text_of(alloc, &matches, "state")?,
        outcomes: text_of(alloc, &matches, "outcomes")?,
    })
}

/// The number that the words of `trial` ask for.
fn read_trial(alloc: Global, words: &[String]) -> Result<u32, WordsFault>
    ensures words { GivesUnless fault.Memory (λ n. n) result
        (or_refuse fault.Usage (trial_asked (map string_bytes words.entry.now))) }
    ensures range { IfOk result (λ n. (1 ≤ n) × (n ≤ most_trial)) }
{
    let matches = find_entries(trial_parser(alloc)?, words)?;
    match number_of(&matches, "number", u64::from(MOST_TRIAL)) {
        Some(number) => Ok(number as u32),
        None => Err(WordsFault::Usage),
    }
}

/// The command that the words after the program's name ask for: the first word, whole, picks it. Usage: there is no
/// first word, or it names no command, or `clap` refuses the words for another cause than memory. Memory: memory ran
/// out.
pub fn read_words(alloc: Global, words: &[String]) -> Result<Command, WordsFault>
    ensures command { GivesUnless fault.Memory command_of result
        (or_refuse fault.Usage (command_asked (map string_bytes words.entry.now))) }
    ensures range { IfOk result IsInRange }
{
    match words {
        [first, ..] => {
            if first.as_str() == "check" {
                Ok(Command::Check(read_check(alloc, words)?))
            } else if first.as_str() == "replay" {
                Ok(Command::Replay(read_replay(alloc, words)?))
            } else if first.as_str() == "trial" {
                Ok(Command::Trial(read_trial(alloc, words)?))
            } else {
                Err(WordsFault::Usage)
            }
        }
        [] => Err(WordsFault::Usage),
    }
}
