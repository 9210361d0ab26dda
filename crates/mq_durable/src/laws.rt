//! Laws of a durable broker.

ghost use Rattle.mq_durable.specs.Prelude.{DurableLaws, ReplayLaws};

use mq_decode::{one_reading, reads_again};
use mq_log::Disk;

/// At any time of a crash, the journal has a prefix of the events that came, and each event that
/// came before output was last collected.
pub fn durable_laws<D: Disk>()
    ensures { DurableLaws D.seen }
{}

/// If no failed allocation is reported, replays of the same events give the same broker and the
/// same replies.
pub fn replay_laws()
    ensures { ReplayLaws }
{
    one_reading();
    reads_again();
}
