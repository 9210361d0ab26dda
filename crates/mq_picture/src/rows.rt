//! The rows of a diagram.

ghost use Rattle.std.specs.Prelude.{◌≡◌, ◌<◌, ◌≤◌, ◌+◌, ◌^◌, ◌++◌, ◌∷◌, [], List, drop, false, true, IfOk, IfSome, OnOk};
ghost use Rattle.mq_picture.specs.Prelude.{Ends, FirstFits, IsChart, left_at, waiting, Draws, reaches};

use crate::entry::{Note, RecordEntry};
use crate::summary::Summary;
use mq_world::Side;
use std::alloc::{AllocError, Global};
use std::collections::VecDeque;

/// How the way of a packet ends.
#[derive(Clone, Copy, Debug)]
pub enum Fate {
    /// All of it arrived.
    Arrived,
    /// All of it arrived, but the side had no connection.
    Discarded,
    /// The connection was lost before all of it arrived.
    Cut,
    /// The replay ended before all of it arrived.
    InFlight,
}

/// The way of a packet, which ends in the row of the arrow.
#[derive(Clone, Copy, Debug)]
pub struct Arrow {
    /// The side to which the packet was sent.
    pub to: Side,
    /// The packet.
    pub packet: Summary,
    /// The number of rows above the place where it was sent.
    pub sent: usize,
    /// The number of its bytes that arrived.
    pub arrived: usize,
    /// How its way ends.
    pub fate: Fate,
}

/// A row of a diagram.
#[derive(Debug, Drop)]
pub enum Row {
    /// The end of a packet's way.
    Arrow(Arrow),
    /// An event at a side.
    Note(Side, Note),
}

// A packet in flight, and the number of rows above the place where it was sent.
#[derive(Clone, Copy)]
struct Flying {
    packet: Summary,
    sent: usize,
}

// The packets in flight to a side, oldest first, and how many bytes of the first one arrived.
#[derive(Drop)]
struct Lane {
    to: Side,
    packets: VecDeque<Flying>,
    arrived: usize,
}

impl Lane {
    fn new(alloc: Global, to: Side) -> Lane
        ensures to { result.to ≡ to }
        ensures packets { result.packets.items ≡ [] }
        ensures arrived { result.arrived ≡ 0 }
    {
        Lane {
            to,
            packets: VecDeque::new(alloc),
            arrived: 0,
        }
    }

    // The number of bytes of the first packet that have not arrived, if there is a packet.
    fn missing(&self) -> Option<usize>
        ensures enough { IfSome result (λ missing.
            FirstFits self.now.packets.items (self.now.arrived + missing)) }
        ensures count { IfSome result (λ missing. self.now.arrived + missing < 2 ^ 64) }
    {
        let first = self.packets.front()?;
        Some(missing_of(first.packet.size, self.arrived))
    }

    // Ends the way of the first packet.
    fn end_first(&mut self, fate: Fate, rows: &mut Vec<Row>) -> Result<(), AllocError>
        requires { reaches fate ≡ true → FirstFits self.old.packets.items self.old.arrived }
        ensures ends { OnOk result (Ends 0 self.old self.new rows.old.items rows.new.items) }
        ensures rest { OnOk result (self.new.packets.items ≡ drop 1 self.old.packets.items) }
    {
        let Some(first) = self.packets.pop_front() else {
            return Ok(());
        };
        rows.push(Row::Arrow(Arrow {
            to: self.to,
            packet: first.packet,
            sent: first.sent,
            arrived: self.arrived,
            fate,
        }))?;
        self.arrived = 0;
        Ok(())
    }

    // Ends the way of all packets before it reaches the side.
    fn end_all(&mut self, fate: Fate, rows: &mut Vec<Row>) -> Result<(), AllocError>
        requires { reaches fate ≡ false }
        ensures ends { OnOk result (Ends 0 self.old self.new rows.old.items rows.new.items) }
        ensures none { OnOk result (self.new.packets.items ≡ []) }
    {
        'packets: while !self.packets.is_empty() {
            self.end_first(fate, rows)?;
        }
        Ok(())
    }

    // Brings the oldest bytes to the side.
    fn arrive(&mut self, count: usize, fate: Fate, rows: &mut Vec<Row>) -> Result<(), AllocError>
        ensures { OnOk result (Ends count self.old self.new rows.old.items rows.new.items) }
    {
        let mut left = count;
        'packets: for _ in 0..self.packets.len() {
            let Some(missing) = self.missing() else {
                return Ok(());
            };
            if left < missing {
                self.arrived += left;
                return Ok(());
            }
            left -= missing;
            self.arrived += missing;
            self.end_first(fate, rows)?;
        }
        Ok(())
    }
}

// The number of bytes of a packet that have not arrived.
fn missing_of(size: u32, arrived: usize) -> usize
    ensures enough { size ≤ arrived + result }
    ensures count { arrived + result < 2 ^ 64 }
{
    (size as usize).saturating_sub(arrived)
}

// A diagram that is drawn from the top.
#[derive(Drop)]
struct Chart {
    rows: Vec<Row>,
    to_client: Lane,
    to_server: Lane,
}

impl Chart {
    fn new(alloc: Global) -> Chart
        ensures { IsChart [] result }
    {
        Chart {
            rows: Vec::new(alloc),
            to_client: Lane::new(alloc, Side::Client),
            to_server: Lane::new(alloc, Side::Server),
        }
    }

    // Adds a packet in flight to a side.
    fn send(&mut self, to: Side, packet: Summary) -> Result<(), AllocError>
        ensures { (history : List RecordEntry) → IsChart history self.old
            → OnOk result (IsChart (history ++ RecordEntry.Sent to packet ∷ []) self.new) }
    {
        let sent = self.rows.len();
        let flying = Flying { packet, sent };
        match to {
            Side::Client => self.to_client.packets.push_back(flying)?,
            Side::Server => self.to_server.packets.push_back(flying)?,
        }
        Ok(())
    }

    // Brings the oldest bytes to a side.
    fn arrive(&mut self, to: Side, count: usize, lost: bool) -> Result<(), AllocError>
        ensures { (history : List RecordEntry) → IsChart history self.old
            → OnOk result (IsChart (history ++ RecordEntry.Arrived to count lost ∷ []) self.new) }
    {
        let fate = end_of(lost);
        match to {
            Side::Client => self.to_client.arrive(count, fate, &mut self.rows),
            Side::Server => self.to_server.arrive(count, fate, &mut self.rows),
        }
    }

    // Ends the way of all packets to a side before it reaches the side.
    fn end_all(&mut self, to: Side, fate: Fate) -> Result<(), AllocError>
        requires { reaches fate ≡ false }
        ensures chart { (history : List RecordEntry) → IsChart history self.old
            → OnOk result (IsChart history self.new) }
        ensures client { OnOk result (waiting self.new.to_client ≡ left_at Side.Client to (waiting self.old.to_client)) }
        ensures server { OnOk result (waiting self.new.to_server ≡ left_at Side.Server to (waiting self.old.to_server)) }
    {
        match to {
            Side::Client => self.to_client.end_all(fate, &mut self.rows),
            Side::Server => self.to_server.end_all(fate, &mut self.rows),
        }
    }

    fn note(&mut self, side: Side, note: Note) -> Result<(), AllocError>
        ensures { (history : List RecordEntry) → IsChart history self.old
            → OnOk result (IsChart (history ++ RecordEntry.Noted side note ∷ []) self.new) }
    {
        self.rows.push(Row::Note(side, note))?;
        Ok(())
    }

    // Draws an entry.
    fn draw(&mut self, entry: RecordEntry) -> Result<(), AllocError>
        ensures { (history : List RecordEntry) → IsChart history self.old
            → OnOk result (IsChart (history ++ entry ∷ []) self.new) }
    {
        match entry {
            RecordEntry::Sent(to, packet) => self.send(to, packet),
            RecordEntry::Arrived { to, count, lost } => self.arrive(to, count, lost),
            RecordEntry::Cleared(to) => self.clear(to),
            RecordEntry::Noted(side, note) => self.note(side, note),
        }
    }

    // Cuts all packets in flight to a side.
    fn clear(&mut self, to: Side) -> Result<(), AllocError>
        ensures { (history : List RecordEntry) → IsChart history self.old
            → OnOk result (IsChart (history ++ RecordEntry.Cleared to ∷ []) self.new) }
    {
        self.end_all(to, Fate::Cut)
    }
}

// How the way of a packet ends whose last byte arrives.
fn end_of(lost: bool) -> Fate {
    if lost { Fate::Discarded } else { Fate::Arrived }
}

/// The rows of the diagram of a record, from the top: an arrow for each packet and a note for each
/// event at a side. An arrow is in the row in which the packet's last byte arrives or is lost.
pub fn rows_of(alloc: Global, entries: Vec<RecordEntry>) -> Result<Vec<Row>, AllocError>
    ensures { IfOk result (λ rows. Draws entries.items rows.items) }
{
    let mut chart = Chart::new(alloc);
    for entry in entries {
        chart.draw(entry)?;
    }
    chart.end_all(Side::Client, Fate::InFlight)?;
    chart.end_all(Side::Server, Fate::InFlight)?;
    Ok(chart.rows)
}
