//! Laws of every run of a broker.

ghost use Rattle.mq_route.specs.Prelude.{AcceptLaws, BegunLaws, BroadLaws, ClientLaws, WillLaws, Examples, ExpiryLaws, FullLaws, HistoryLaws, OutputLaws, RoutingLaws, TakingLaws, NameLaws, ReadLaws, SilentLaws, SnapshotLaws};

use mq_end::sound_laws;
use mq_flow::{identifier_laws, next_laws};
use mq_topic::store_laws;

/// The bytes written on a connection, and its pending output, are the encodings of the packets that
/// are sent on it (4.6). A step changes the pending output of a connection only if its event is on
/// the connection, or if it places a copy for the connected client.
pub fn output_laws()
    ensures { OutputLaws }
{}

/// The laws of runs that begin with a broker without connections, as after a restart: they need not
/// begin with a new broker (3.1.2.4).
pub fn begun_laws()
    ensures { BegunLaws }
{
    store_laws();
}

/// The messages placed for a client are those that are routed to it by its subscriptions (3.3.5,
/// 3.8.4), whether it is connected or not (4.3), and the retained messages (3.3.1.3).
pub fn routing_laws()
    ensures { RoutingLaws }
{
    store_laws();
}

/// The effect of a list of acts on subscriptions, connections and retained messages, by the last
/// act that matters (3.3.1.3, 3.8.4, 3.10.4).
pub fn history_laws()
    ensures { HistoryLaws }
{
    store_laws();
}

/// A client without an identifier gets `auto-` and the least number that is free (3.1.3.1).
pub fn name_laws()
    ensures { NameLaws }
{}

/// The packets read on a connection are those that its bytes encode (4.2). The configuration never
/// changes.
pub fn read_laws()
    ensures { ReadLaws }
{}

/// The messages taken from a client are those that a receiver's book delivers from its packets
/// (4.3).
pub fn taking_laws()
    ensures { TakingLaws }
{}

/// A connection closes because a session is full only at its own PUBLISH or SUBSCRIBE, whose routed
/// messages need more identifiers than a session has free (2.3.1).
pub fn full_laws()
    ensures { FullLaws }
{
    store_laws();
}

/// A client's will is dropped only if an allocation for it fails, or if a session has too few
/// identifiers free for its copies (3.1.2.5, 2.3.1).
pub fn will_laws()
    ensures { WillLaws }
{}

/// Each placed copy of QoS 1 or 2 is accepted by the sender's book of its client (4.3), with the
/// first free identifier (2.3.1). So the identifiers in use are from 1 to 65,535, distinct, and at
/// most the capacity.
pub fn accept_laws()
    ensures { AcceptLaws }
{
    identifier_laws();
    next_laws();
    sound_laws();
}

/// A tick closes exactly the connections that wait for CONNECT longer than
/// [`HubConfig::connect_within`](crate::HubConfig) (3.1). No other event closes a connection for
/// it.
pub fn silent_laws()
    ensures { SilentLaws }
{}

/// A connection closes because a SUBSCRIBE is too broad only at its own SUBSCRIBE whose filters,
/// times the retained messages, exceed [`HubConfig::most_matches`](crate::HubConfig) (3.8.4). So a
/// SUBSCRIBE is sent at most that many retained messages.
pub fn broad_laws()
    ensures { BroadLaws }
{}

/// A tick removes the sessions whose clients are away for longer than
/// [`HubConfig::session_expiry`](crate::HubConfig) (3.1.2.4), before it closes connections. A
/// session stores the time at which its client's connection closes.
pub fn expiry_laws()
    ensures { ExpiryLaws }
{}

/// A client is connected on a connection exactly if the acts of the run say so (3.1.4, 4.6).
pub fn client_laws()
    ensures { ClientLaws }
{
    store_laws();
}

/// A snapshot determines a broker apart from its configuration and its pending output (3.1.2.4,
/// 4.1).
pub fn snapshot_laws()
    ensures { SnapshotLaws }
{}

/// Worked runs, with their acts and pending output.
pub fn examples()
    ensures { Examples }
{}
