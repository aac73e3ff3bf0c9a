//! The commands of `clap` that read the words of each command.
ghost use Rattle.std.specs.Prelude.{◌≡◌, IfOk, true};
ghost use Rattle.clap.specs.Words.{app_of};
ghost use Rattle.aq_words.specs.Entries.{is_simple_parser};
ghost use Rattle.aq_words.specs.Parsers.{check_parser, replay_parser, trial_parser};

use crate::arguments::{needed_option, option, option_or, positional, steps_option, trial_number};
use clap::Command;
use std::alloc::{AllocError, Global};

/// Reads `check PROGRAM SETS [--pre NAME] [--post NAME] [--steps N]`.
pub(crate) fn check_parser<'a>(alloc: Global) -> Result<Command<'a>, AllocError>
    ensures parser { IfOk result (λ c. app_of c ≡ check_parser) }
    ensures simple { IfOk result (λ c. is_simple_parser (app_of c) ≡ true) }
{
    let with_program = Command::new(alloc, "check").arg(positional(alloc, "program"))?;
    let with_sets = with_program.arg(positional(alloc, "sets"))?;
    let with_pre = with_sets.arg(option_or(alloc, "pre", "pre"))?;
    let with_post = with_pre.arg(option_or(alloc, "post", "post"))?;
    let whole = with_post.arg(steps_option(alloc))?;
    Ok(whole)
}

/// Reads `replay PROGRAM SETS --state NAME [--outcomes TEXT]`.
pub(crate) fn replay_parser<'a>(alloc: Global) -> Result<Command<'a>, AllocError>
    ensures parser { IfOk result (λ c. app_of c ≡ replay_parser) }
    ensures simple { IfOk result (λ c. is_simple_parser (app_of c) ≡ true) }
{
    let with_program = Command::new(alloc, "replay").arg(positional(alloc, "program"))?;
    let with_sets = with_program.arg(positional(alloc, "sets"))?;
    let with_state = with_sets.arg(needed_option(alloc, "state"))?;
    let whole = with_state.arg(option(alloc, "outcomes"))?;
    Ok(whole)
}

/// Reads `trial N`.
pub(crate) fn trial_parser<'a>(alloc: Global) -> Result<Command<'a>, AllocError>
    ensures parser { IfOk result (λ c. app_of c ≡ trial_parser) }
    ensures simple { IfOk result (λ c. is_simple_parser (app_of c) ≡ true) }
{
    let whole = Command::new(alloc, "trial").arg(trial_number(alloc))?;
    Ok(whole)
}
