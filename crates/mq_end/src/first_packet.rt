//! The first packet of a connection (3.1, 3.2), and the retransmissions that follow it (4.4).

ghost use Rattle.std.specs.Prelude.{◌≡◌, ◌∷◌, [], IsOk, IfOk, OnOk, OnErr};
ghost use Rattle.mq_end.specs.Prelude.{resent, client_open_gets, connack_gets, server_open_gets, refuses, becomes_connected, renewed, accepts_connect, connack_in, terms_get, terms_in, terms_of, AreEncodable, FitsRoom, Acts, Gives, PutsOut};
ghost use Rattle.mq_packet.specs.declared.packet.Packet.TheVariants as packets;
ghost use Rattle.mq_packet.specs.declared.connack.ConnAck.TheVariants as connacks;

use crate::endpoint::Endpoint;
use crate::happening::Happening;
use crate::packet_outcome::PacketOutcome;
use crate::reason::CloseReason;
use mq_packet::{ConnAck, Connect, Packet, RefusalCode};
use std::alloc::AllocError;

/// The fields of a CONNECT that determine the response.
#[derive(Clone, Copy)]
struct Terms {
    clean: bool,
    keep_alive: u16,
    // the client has no identifier of its own (3.1.3.1)
    anonymous: bool,
}

// The CONNACK in a packet (3.2).
fn connack_in(packet: Packet) -> Option<ConnAck>
    ensures { result ≡ connack_in packet }
{
    match packet {
        Packet::ConnAck(answer) => Some(answer),
        _ => None,
    }
}

// The terms of a packet, if it is CONNECT (3.1).
fn terms_in(packet: Packet) -> Option<Terms>
    ensures { result ≡ terms_in packet }
{
    match packet {
        Packet::Connect(connect) => Some(terms_of(connect.as_connect())),
        _ => None,
    }
}

fn terms_of(connect: &Connect) -> Terms
    ensures { result ≡ terms_of connect.now }
{
    Terms {
        clean: connect.clean_session,
        keep_alive: connect.keep_alive,
        anonymous: connect.client_id.as_str().is_empty(),
    }
}

impl Endpoint {
    /// Marks the client as connected (4.4).
    fn become_connected(&mut self, session_present: bool) -> Result<PacketOutcome, AllocError>
        ensures ok { IfOk result (λ outcome. Gives (becomes_connected [] session_present self.old.end) outcome self.old self.new) }
        ensures err { OnErr result (self.new ≡ self.old) }
    {
        self.write_resent()?;
        self.connect_end();
        Ok(PacketOutcome::tells(Happening::Up { session_present }))
    }

    /// Processes the CONNACK that the client waits for (3.2).
    fn take_connack(&mut self, answer: ConnAck) -> Result<PacketOutcome, AllocError>
        ensures ok { IfOk result (λ outcome. Gives (connack_gets answer self.old.end) outcome self.old self.new) }
        ensures err { OnErr result (self.new ≡ self.old) }
    {
        let session_present = match answer {
            ConnAck::Refused(code) => {
                return Ok(PacketOutcome::closes(self.close(CloseReason::Refused(code))));
            }
            ConnAck::Accepted { session_present } => session_present,
        };
        if self.clean && session_present {
            return Ok(PacketOutcome::closes(self.close(CloseReason::Unexpected)));
        }
        if !self.clean && self.known && !session_present {
            return Ok(PacketOutcome::closes(self.close(CloseReason::SessionLost)));
        }
        self.become_connected(session_present)
    }

    /// Processes the first packet at the client (3.2).
    pub(crate) fn open_client(&mut self, packet: Packet) -> Result<PacketOutcome, AllocError>
        ensures ok { IfOk result (λ outcome. Gives (client_open_gets packet self.old.end) outcome self.old self.new) }
        ensures err { OnErr result (self.new ≡ self.old) }
    {
        match connack_in(packet) {
            Some(answer) => self.take_connack(answer),
            None => Ok(PacketOutcome::closes(self.close(CloseReason::Unexpected))),
        }
    }

    /// CONNECT is refused: CONNACK says why, and the end closes, for this reason (3.2.2.3).
    pub(crate) fn refuse(&mut self, code: RefusalCode) -> Result<CloseReason, AllocError>
        ensures reason { IfOk result (λ reason. reason ≡ CloseReason.Refused code) }
        ensures ok { OnOk result (Acts (refuses code self.old.end) self.old self.new) }
        ensures within { FitsRoom (refuses code self.old.end).out self.old → IsOk result }
        ensures err { OnErr result (self.new ≡ self.old) }
    {
        self.write(&Packet::ConnAck(ConnAck::Refused(code)))?;
        Ok(self.close(CloseReason::Refused(code)))
    }

    /// Sends the response to an accepted CONNECT: CONNACK, and all retransmissions (3.2, 4.4).
    fn write_accepted(&mut self, clean: bool, session_present: bool) -> Result<(), AllocError>
        ensures ok { OnOk result (PutsOut (packets.ConnAck (connacks.Accepted session_present)
            ∷ resent (renewed clean self.old.end).book) self.old.output self.new.output) }
        ensures state { self.new ≡ record self.old { output = self.new.output } }
        ensures within { AreEncodable (resent (renewed clean self.old.end).book)
            → FitsRoom (packets.ConnAck (connacks.Accepted session_present) ∷ resent (renewed clean self.old.end).book) self.old
            → IsOk result }
        ensures err { OnErr result (self.new ≡ self.old) }
    {
        let before = self.output.len();
        self.write(&Packet::ConnAck(ConnAck::Accepted { session_present }))?;
        if clean {
            return Ok(());
        }
        let resent = self.write_resent();
        if resent.is_err() {
            self.output.truncate(before);
        }
        resent
    }

    /// CONNECT is accepted (3.1.4).
    fn accept_connect(
        &mut self,
        terms: Terms,
        session_present: bool,
    ) -> Result<PacketOutcome, AllocError>
        ensures ok { IfOk result (λ outcome. Gives (accepts_connect terms session_present self.old.end) outcome self.old self.new) }
        ensures within { AreEncodable (resent (renewed terms.clean self.old.end).book)
            → FitsRoom (accepts_connect terms session_present self.old.end).out self.old → IsOk result }
        ensures err { OnErr result (self.new ≡ self.old) }
    {
        self.write_accepted(terms.clean, session_present)?;
        self.renew(terms.clean);
        self.keep_alive = terms.keep_alive;
        self.connect_end();
        Ok(PacketOutcome::tells(Happening::Up { session_present }))
    }

    /// Processes the CONNECT that the server waits for (3.1.4).
    fn take_connect(&mut self, terms: Terms) -> Result<PacketOutcome, AllocError>
        ensures ok { IfOk result (λ outcome. Gives (terms_get terms self.old.end) outcome self.old self.new) }
        ensures within { AreEncodable (terms_get terms self.old.end).out → FitsRoom (terms_get terms self.old.end).out self.old
            → IsOk result }
        ensures err { OnErr result (self.new ≡ self.old) }
    {
        if !terms.clean && terms.anonymous {
            let reason = self.refuse(RefusalCode::IdentifierRejected)?;
            return Ok(PacketOutcome::closes(reason));
        }
        let session_present = !terms.clean && self.known;
        self.accept_connect(terms, session_present)
    }

    /// Processes the first packet at the server (3.1).
    pub(crate) fn open_server(&mut self, packet: Packet) -> Result<PacketOutcome, AllocError>
        ensures ok { IfOk result (λ outcome. Gives (server_open_gets packet self.old.end) outcome self.old self.new) }
        ensures within { AreEncodable (server_open_gets packet self.old.end).out
            → FitsRoom (server_open_gets packet self.old.end).out self.old → IsOk result }
        ensures err { OnErr result (self.new ≡ self.old) }
    {
        match terms_in(packet) {
            Some(terms) => self.take_connect(terms),
            None => Ok(PacketOutcome::closes(self.close(CloseReason::Unexpected))),
        }
    }
}
