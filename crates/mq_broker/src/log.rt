//! The log of a broker: one line for each occurrence.

ghost use Rattle.std.specs.Prelude.{◌≡◌, ◌≢◌, OnOk};
ghost use Rattle.mq_broker.specs.Prelude.{RefusalCode, line_text, closed_text, refused_text, AreReported, is_verbose};
ghost use Rattle.mq_end.specs.declared.reason.CloseReason.TheVariants as ends;
ghost use Rattle.mq_route.specs.declared.close.HubClose.TheVariants as closes;

use crate::peers::{Peer, Peers};
use crate::snapshot::write_snapshots;
use mq_end::CloseReason;
use mq_loop::{Report, SnapshotNote};
use mq_route::HubClose;
use mq_status::{LogLine, write_log};
use mq_topic::ClientKey;
use std::alloc::Global;
use std::io;
use std::io::Write;
use std::marker::Model;
use std::net::SocketAddr;

/// The lines of a log.
#[derive(Clone, Copy, Debug, PartialEq, Eq, PartialOrd, Ord)]
pub enum LogLevel {
    /// None.
    Quiet,
    /// Lines about clients.
    Normal,
    /// Also lines about connections and snapshots.
    Verbose,
}

/// A log. A line that can't be written is lost.
#[derive(Drop)]
pub struct Log<W: Write> {
    alloc: Global,
    output: W,
    level: LogLevel,
}

impl<W: Write> Model for Log<W> {
    ghost use Rattle.mq_broker.specs.Lines.{LogState};

    ghost Value = { LogState };

    ghost view = { λ l. record { written = W.contents l.output; level = l.level } };
}

impl<W: Write> Log<W> {
    /// A log that writes to `output`.
    pub fn new(alloc: Global, output: W, level: LogLevel) -> Log<W>
        ensures { result ≡ record { written = W.contents output; level = level } }
    {
        Log {
            alloc,
            output,
            level,
        }
    }

    /// Whether the log has lines of this level.
    pub(crate) fn has(&self, level: LogLevel) -> bool {
        self.level >= level
    }

    /// Writes that the broker listens.
    pub(crate) fn listening(&mut self, address: SocketAddr) {
        if self.has(LogLevel::Normal) {
            let _ = writeln!(self.output, "listening address={address}");
        }
    }

    /// Writes that a connection was accepted.
    pub(crate) fn opened(&mut self, address: SocketAddr) {
        if self.has(LogLevel::Verbose) {
            let _ = writeln!(self.output, "opened address={address}");
        }
    }

    /// Writes that a connection was accepted and closed, because there are too many.
    pub(crate) fn turned_away(&mut self, address: SocketAddr) {
        if self.has(LogLevel::Normal) {
            let _ = writeln!(
                self.output,
                "refused address={address} reason=\"too many connections\""
            );
        }
    }

    /// Writes that no connection can be accepted now.
    pub(crate) fn not_accepting(&mut self, error: &io::Error) {
        if self.has(LogLevel::Normal) {
            let _ = writeln!(self.output, "not-accepting reason=\"{error}\"");
        }
    }

    /// Writes a report of a round. `pending` is the number of bytes that are pending on the
    /// connection of a slow client.
    pub(crate) fn report(&mut self, report: &Report, peers: &Peers, pending: usize) {
        if !self.has(LogLevel::Normal) {
            return;
        }
        let peer = match place_of(report) {
            Some(place) => peers.get(place),
            None => None,
        };
        let _ = match (report, peer) {
            (Report::SessionEnded { key, .. }, peer) => self.session_ended(*key, peer),
            (_, None) => Ok(()),
            (Report::Connected { .. }, Some(peer)) => self.connected(peer),
            (Report::Closed { why, .. }, Some(peer)) => self.closed(peer, *why),
            (Report::Slow { .. }, Some(peer)) => self.slow(peer, pending),
            (Report::Ended { .. }, Some(peer)) => self.ended(peer.address),
        };
    }

    fn connected(&mut self, peer: &Peer) -> io::Result<()> {
        let client = client_of(self.alloc, peer)?;
        let address = address_of(self.alloc, peer)?;
        let line = LogLine::Connected {
            client: client.as_str(),
            address: address.as_str(),
        };
        write_log(&mut self.output, line)
    }

    fn closed(&mut self, peer: &Peer, reason: HubClose) -> io::Result<()> {
        let address = address_of(self.alloc, peer)?;
        if peer.key.is_none() {
            return write_log(&mut self.output, early_line(address.as_str(), reason));
        }
        let client = client_of(self.alloc, peer)?;
        let line = LogLine::Closed {
            client: client.as_str(),
            reason,
        };
        write_log(&mut self.output, line)
    }

    fn slow(&mut self, peer: &Peer, pending: usize) -> io::Result<()> {
        let client = client_of(self.alloc, peer)?;
        let line = LogLine::Slow {
            client: client.as_str(),
            pending: pending as u64,
        };
        write_log(&mut self.output, line)
    }

    fn session_ended(&mut self, key: ClientKey, peer: Option<&Peer>) -> io::Result<()> {
        let client = match peer {
            Some(peer) => client_of(self.alloc, peer)?,
            None => key_name(self.alloc, key)?,
        };
        let line = LogLine::SessionEnded {
            client: client.as_str(),
        };
        write_log(&mut self.output, line)
    }

    fn ended(&mut self, address: SocketAddr) -> io::Result<()> {
        if self.has(LogLevel::Verbose) {
            writeln!(self.output, "ended address={address}")?;
        }
        Ok(())
    }

    /// Writes how many messages a client missed.
    pub(crate) fn missed(&mut self, client: &str, messages: u64) {
        if self.has(LogLevel::Normal) {
            let _ = write_log(&mut self.output, LogLine::Missed { client, messages });
        }
    }

    /// Writes how many messages the client of a session missed that was removed.
    pub(crate) fn missed_before_end(&mut self, key: ClientKey, messages: u64) {
        if let Ok(client) = key_name(self.alloc, key) {
            self.missed(client.as_str(), messages);
        }
    }

    // Whether the log has lines about connections and snapshots.
    fn is_verbose(&self) -> bool
        ensures { result ≡ is_verbose self.now.level }
    {
        match self.level {
            LogLevel::Verbose => true,
            LogLevel::Quiet | LogLevel::Normal => false,
        }
    }

    /// Writes the lines about snapshots, and those that are buffered.
    pub(crate) fn snapshots(&mut self, notes: &[SnapshotNote]) -> io::Result<()>
        ensures { OnOk result (AreReported notes.now self.old self.new) }
    {
        if notes.is_empty() || !self.is_verbose() {
            return Ok(());
        }
        write_snapshots(&mut self.output, notes)?;
        self.output.flush()
    }

    /// Writes the lines that are buffered.
    pub(crate) fn flush(&mut self) {
        let _ = self.output.flush();
    }
}

// The place of a report.
fn place_of(report: &Report) -> Option<u32> {
    match report {
        Report::Connected { place, .. }
        | Report::Closed { place, .. }
        | Report::Slow { place }
        | Report::Ended { place } => Some(*place),
        Report::SessionEnded { place, .. } => *place,
    }
}

// The line for a connection that is closed before a client is connected.
fn early_line<'a>(address: &'a str, reason: HubClose) -> LogLine<'a>
    ensures refused { (code : RefusalCode) → reason ≡ closes.Own (ends.Refused code)
        → line_text result ≡ refused_text address.now code }
    ensures closed { ((code : RefusalCode) → reason ≢ closes.Own (ends.Refused code))
        → line_text result ≡ closed_text address.now reason }
{
    match reason {
        HubClose::Own(CloseReason::Refused(code)) => LogLine::Refused { address, code },
        _ => LogLine::ClosedEarly { address, reason },
    }
}

// The client identifier of a peer, or the number of its session if the identifier is not known.
fn client_of(alloc: Global, peer: &Peer) -> io::Result<String> {
    match (&peer.client, peer.key) {
        (Some(client), _) => Ok(String::from_str(alloc, client.as_str())?),
        (None, Some(key)) => key_name(alloc, key),
        (None, None) => Ok(String::new(alloc)),
    }
}

// The address of a peer as text.
fn address_of(alloc: Global, peer: &Peer) -> io::Result<String> {
    let address = peer.address;
    Ok(format!(in alloc; "{address}")?)
}

// The name of a session whose client identifier is not known.
fn key_name(alloc: Global, key: ClientKey) -> io::Result<String> {
    let number = key.get();
    Ok(format!(in alloc; "#{number}")?)
}
