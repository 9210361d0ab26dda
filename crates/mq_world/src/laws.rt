//! The laws of every run of the machine.

ghost use Rattle.mq_world.specs.Prelude.{HeadlineLaw, SettlingLaw, AtOnceLaw, IdentifiersLaw, RunsLaw, SessionsLaw, CarriedLaw, Examples, OverBytes, SettlesOver, EventByEvent};

use mq_decode::reads_again;
use mq_end::closing_laws;

/// The promise of every run of two ends that keep their sessions, whatever is lost, in each
/// direction.
///
/// Exactly once (4.3.3): the delivered messages are a prefix of the accepted ones, so none is
/// delivered twice or out of order; the others are at the end of that list, and the sender still
/// stores them. At least once (4.3.2): only accepted messages are delivered, each for the first
/// time after all before it; an acknowledged one was delivered. At most once (4.3.1): some of the
/// accepted messages are delivered, in order.
pub fn headline()
    ensures { HeadlineLaw }
{}

/// From every machine that a run reaches, a new connection and three exchanges settle everything:
/// no message is stored, each QoS 2 message was delivered, each QoS 1 message at least once (4.4).
pub fn settling()
    ensures { SettlingLaw }
{}

/// Packets that arrive at once have the same effect as one after another, also if the end closes at
/// one of them.
pub fn arrivals_at_once()
    ensures { AtOnceLaw }
{}

/// Over every run the identifiers in use at a side are 1 to 65,535, each is used once, their number
/// is at most the capacity, and a newly assigned one was free (2.3.1).
pub fn identifiers()
    ensures { IdentifiersLaw }
{}

/// Runs that the machine has: an acknowledgement lost, a drop in the handshake, a refused message.
pub fn examples()
    ensures { Examples }
{}

/// Runs follow one another, and arrivals and settling are runs.
pub fn runs()
    ensures { RunsLaw }
{}

/// Over every run both sides keep their sessions, and if the client's is established the server has
/// one (3.1.2.4).
pub fn sessions()
    ensures { SessionsLaw }
{}

/// Over every run, stored messages and packets in flight are well-formed and made of published
/// messages: a test that all published messages pass, these pass too (2.3.1, 3.3).
pub fn carried()
    ensures { CarriedLaw }
{}

/// A world over bytes, cut anywhere, is a run of the machine: for each event the machine that the
/// world carries makes moves, so the promise of every run holds for the world (4.2, 4.3, 4.6).
pub fn over_bytes()
    ensures { OverBytes }
{
    reads_again();
    closing_laws();
}

/// An exchange of all the bytes of a world is one of all the packets of the machine that it
/// carries, wherever no end runs out of memory; and so a new connection and three exchanges settle
/// the world (4.4).
pub fn settles_over_bytes()
    ensures { SettlesOver }
{
    reads_again();
    closing_laws();
}

/// The events of a world and their answers are a run of the machine that it carries; and the
/// messages that each side accepted and delivered, and the acknowledged ones, are its previous
/// lists followed by those that the answers report (4.3).
pub fn event_by_event()
    ensures { EventByEvent }
{
    over_bytes();
}
