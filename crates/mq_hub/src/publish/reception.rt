//! Classifies a PUBLISH before anything changes (3.3, 4.3).

ghost use Rattle.std.specs.Prelude.{◌≡◌, true, is_some};
ghost use Rattle.mq_hub.specs.Prelude.{fits_window, is_up, end_of, up_on, sessions_of, CanReceive, IsReceived, by_identifier};
ghost use Rattle.std.specs.FinSet as set;

use crate::hub::HubOver;
use mq_end::ServerEnd;
use mq_flow::Receiver;
use mq_packet::{PacketId, Publish};
use mq_tables::Tables;
use mq_topic::{ClientKey, FilterStore, Qos};

/// The class of a PUBLISH (4.3).
#[derive(Clone, Copy)]
pub(crate) enum Reception {
    /// Its message is new.
    New,
    /// Its message was delivered before (4.3.3).
    Duplicate,
    /// Its identifier is over the receive window: the connection closes (4.8).
    WindowFull,
}

// Classifies a PUBLISH of quality of service 2 by its identifier (4.3.3).
fn by_identifier(id: PacketId, receiver: &Receiver, window: Option<u16>) -> Reception
    ensures { result ≡ by_identifier (fits_window window id receiver.now) (set.contains receiver.now id) }
{
    if !receiver.fits(id, window) {
        return Reception::WindowFull;
    }
    if receiver.is_stored(id) {
        Reception::Duplicate
    } else {
        Reception::New
    }
}

fn reception_at(end: &ServerEnd, publish: &Publish, window: Option<u16>) -> Reception
    requires up { is_up end.now.end.state ≡ true }
    requires known { end.now.end.known ≡ true }
    requires window { end.now.end.window ≡ window }
    ensures { IsReceived result publish.now end.now.end }
{
    let qos = publish.message().qos;
    let Some(delivery) = publish.delivery() else {
        return Reception::New;
    };
    // A known end has a session, so this is unreachable.
    let Some(session) = end.session() else {
        return Reception::New;
    };
    if qos == Qos::Q2 {
        by_identifier(delivery.id, &session.receiver, window)
    } else {
        Reception::New
    }
}

fn class_of<S: FilterStore>(
    tables: &Tables<S>,
    key: ClientKey,
    publish: &Publish,
    window: Option<u16>,
) -> Reception
    requires { CanReceive key window tables.now.sessions.list }
    ensures { IsReceived result publish.now (end_of key (sessions_of tables.now.sessions.list)) }
{
    match tables.sessions.get(key) {
        Some(session) => reception_at(&session.end, publish, window),
        // A connected client has a session, so this is unreachable.
        None => Reception::New,
    }
}

impl<S: FilterStore> HubOver<S> {
    /// Classifies a PUBLISH of a connected client (4.3).
    pub(crate) fn reception(&self, key: ClientKey, publish: &Publish) -> Reception
        requires { is_some (up_on key self.now.connections) ≡ true }
        ensures { IsReceived result publish.now (end_of key self.now.sessions) }
    {
        class_of(&self.tables, key, publish, self.config.window)
    }
}
