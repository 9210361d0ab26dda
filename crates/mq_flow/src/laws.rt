//! The laws of the sender's book.

ghost use Rattle.mq_flow.specs.Prelude.{IdentifierLaws, ReceiverLaws, SendingLaws, StrayLaws, NextLaws, SavedLaws, SavedTwoLaws};

use mq_wire::text_laws;

/// Identifiers in use are 1 to 65,535, each is used once, and their number is at most the
/// capacity, after any list of moves. A sender that is not full has a free identifier (2.3.1).
pub fn identifier_laws()
    ensures { IdentifierLaws }
{}

/// The identifier that the next packet gets: it is the first free one wherever the book isn't full,
/// and it is the only first free one (2.3.1).
pub fn next_laws()
    ensures { NextLaws }
{}

/// An expected acknowledgement removes exactly the acknowledged message or identifier from the
/// book. A stray one changes nothing (4.3.2, 4.3.3).
pub fn stray_laws()
    ensures { StrayLaws }
{}

/// A QoS 2 identifier is new exactly until its PUBLISH arrives, and again after its PUBREL (4.3.3).
pub fn receiver_laws()
    ensures { ReceiverLaws }
{}

/// Accepting a message and sending it later has the same effect as accepting it while connected:
/// one PUBLISH without DUP (3.3.1.1).
pub fn sending_laws()
    ensures { SendingLaws }
{}

/// The saved form, version 1: writing and reading are inverse to each other, and bytes are the
/// saved form of at most one session (4.1).
pub fn saved_laws()
    ensures { SavedLaws }
{}

/// The saved form, version 2: writing and reading are inverse to each other, and version 1 can be
/// read too (3.1.3.1, 4.1).
pub fn saved_two_laws()
    ensures { SavedTwoLaws }
{
    text_laws();
}
