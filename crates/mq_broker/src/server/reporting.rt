//! The log of the rounds.

ghost use Rattle.std.specs.Prelude.{◌≡◌, [], OnOk};
ghost use Rattle.mq_broker.specs.Prelude.{AreReported};

use super::Server;
use mq_loop::{Broker, Report, SnapshotBroker};
use std::io;
use std::io::Write;

/// The time between two lines about missed messages, in milliseconds.
const MISSED: u64 = 1_000;

impl<B: Broker + Drop, L: Write + Drop> Server<B, L> {
    // Writes the reports of a round to the log, and the messages that clients missed.
    pub(super) fn take_reports(&mut self, now: u64) {
        for report in self.connections.take_reports() {
            self.take_report(&report);
        }
        if let Some(due) = self.missed_due() {
            if now >= due {
                self.write_missed();
                self.missed_at = Some(now);
            }
        }
        self.log.flush();
    }

    fn take_report(&mut self, report: &Report) {
        if let Report::Connected {
            place,
            key,
            client,
            ..
        } = report
        {
            let client = match client {
                Some(client) => client.clone().ok(),
                None => None,
            };
            self.peers.set_client(*place, *key, client);
        }
        let pending = match report {
            Report::Slow { place } => self.connections.pending(*place),
            _ => 0,
        };
        self.log.report(report, &self.peers, pending);
        if let Report::Ended { place } = report {
            self.peers.remove(*place);
            if self.failed_at.is_some() {
                self.may_accept = true;
            }
        }
    }

    // The time at which the log gets the next lines about missed messages, if there are any.
    pub(super) fn missed_due(&self) -> Option<u64> {
        if !self.connections.observer().missed.has_unlogged() {
            return None;
        }
        match self.missed_at {
            Some(last) => Some(last.saturating_add(MISSED)),
            None => Some(0),
        }
    }

    // Writes the number of messages that each client missed since the last lines.
    fn write_missed(&mut self) {
        let mut missed = self.connections.observer_mut().missed.take_unlogged();
        let hub = self.connections.hub();
        for index in 0..hub.counts().sessions {
            let (Some(counts), Some(client)) = (
                hub.session_counts(index),
                hub.session_client(index),
            ) else {
                continue;
            };
            if let Some(messages) = missed.remove(&counts.key) {
                self.log.missed(client.as_str(), messages);
            }
        }
        for (key, messages) in missed.iter() {
            self.log.missed_before_end(*key, *messages);
        }
    }
}

impl<B: SnapshotBroker + Drop, L: Write + Drop> Server<B, L> {
    // Takes the notes about snapshots, and writes their lines to the log.
    pub(super) fn report_snapshots(&mut self) -> io::Result<()>
        ensures taken { self.new.connections.watched.served.notes ≡ [] }
        ensures lines { OnOk result (AreReported self.old.connections.watched.served.notes self.old.log self.new.log) }
    {
        let notes = self.connections.take_notes();
        self.log.snapshots(notes.as_slice())
    }
}
