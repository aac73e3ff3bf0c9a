//! The last texts that a run writes, and the statuses that go with them.
ghost use Rattle.std.specs.Prelude.{◌≡◌};
ghost use Rattle.aq_report.specs.Refusals.{refusal_text};
ghost use Rattle.aq_report.specs.declared.refusal.Refusal.TheVariants.{OutOfMemory};
ghost use Rattle.aq_world.specs.Prints.{Prints};
ghost use Rattle.aq_top.specs.Ends.{Ends, IsText, refusal_status, status_of};
ghost use Rattle.aq_top.specs.Lines.{usage_text};

use crate::status::Status;
use aq_report::{Refusal, print_refusal};
use aq_world::{Sink, SinkFault, put_text};

const USAGE: &[u8] =
    b"usage: autoq check PROG SETS [--pre NAME] [--post NAME] [--steps N] [--cert FILE]\n       \
    autoq recheck PROG SETS CERT [--pre NAME] [--post NAME] [--steps N]\n       \
    autoq replay PROG SETS --state NAME [--outcomes TEXT]\n       autoq trial N\n";

/// The status after a call that prints a whole text.
pub(crate) fn status_after(printed: Result<(), SinkFault>, wanted: Status) -> Status
    ensures { result ≡ status_of printed wanted }
{
    match printed {
        Ok(()) => wanted,
        Err(SinkFault::Failed) => Status::Write,
        Err(SinkFault::Memory) => Status::Memory,
    }
}

#[tactic(auto, unfolding(crate::specs::Lines::usage_text))]
fn print_usage<K: Sink>(out: &mut K) -> Result<(), SinkFault>
    ensures { Prints K.meaning out.old out.new result usage_text }
{
    put_text(out, USAGE)
}

/// Says how the program is used.
pub(crate) fn say_usage<K: Sink>(out: &mut K) -> Status
    ensures { Ends K.meaning out.old out.new (IsText Status.Usage usage_text) result }
{
    status_after(print_usage(out), Status::Usage)
}

fn refusal_status(refusal: &Refusal<'_>) -> Status
    ensures { result ≡ refusal_status refusal.now }
{
    match refusal {
        Refusal::ReadFault { .. } => Status::Read,
        Refusal::OutOfMemory => Status::Memory,
        _ => Status::Refused,
    }
}

/// Says what is refused.
pub(crate) fn say_refusal<K: Sink>(out: &mut K, refusal: &Refusal<'_>) -> Status
    ensures { Ends K.meaning out.old out.new (IsText (refusal_status refusal.now) (refusal_text refusal.now)) result }
{
    status_after(print_refusal(out, refusal), refusal_status(refusal))
}

/// Says that memory ran out, as where the words after the program's name could not be had.
pub fn say_memory<K: Sink>(out: &mut K) -> Status
    ensures { Ends K.meaning out.old out.new (IsText Status.Memory (refusal_text OutOfMemory)) result }
{
    say_refusal(out, &Refusal::OutOfMemory)
}
