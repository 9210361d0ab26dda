//! The status page.

ghost use Rattle.std.specs.Prelude.{◌≡◌, ◌++◌, ◌<◌, codes, OnOk};
ghost use Rattle.mq_status.specs.Prelude.{flat_map, Appends, by_qos_row, connections_text, item_text, page_text, row_text, state_word, title_text, totals_text};
ghost use Rattle.mq_status.specs.Page.{closed_text, gauges_text, messages_text, missed_text, refused_text, sessions_text};

use crate::counter::COUNTERS;
use crate::html::HtmlEscaped;
use crate::metrics::{Gauges, Metrics};
use mq_wire::Text;
use std::io;
use std::io::Write;

/// The greatest number of rows that the page shows.
pub const MAX_ROWS: usize = 20;

// The page up to the first number. The style follows the reader's choice of dark or light.
const HEAD: &str = "<!DOCTYPE html>
<html lang=\"en\">
<meta charset=\"utf-8\">
<meta name=\"viewport\" content=\"width=device-width, initial-scale=1\">
<meta name=\"color-scheme\" content=\"light dark\">
<meta http-equiv=\"refresh\" content=\"5\">
<title>MQTT broker</title>
<style>
body { margin: 1rem auto; max-width: 60rem; padding: 0 1rem; font: 1rem/1.4 system-ui, sans-serif;
  color: #222; background: #fff }
table { border-collapse: collapse }
th, td { padding: .2rem .6rem; border-bottom: 1px solid #ccc; text-align: right }
th:first-child, td:first-child { text-align: left; overflow-wrap: anywhere; font-weight: normal;
  min-width: 6rem }
h1 { font-size: 1.4rem } h2 { font-size: 1.1rem }
main > div { overflow-x: auto }
@media (prefers-color-scheme: dark) {
  body { color: #ddd; background: #111 } th, td { border-color: #444 }
}
</style>
<main>
<h1>MQTT broker</h1>";

const MESSAGES: &str = "<h2>Messages</h2>\n<table>\n<tr><th>quality of service<th>0<th>1<th>2";

const SESSIONS: &str = "<h2>Sessions</h2>\n<div><table>\n<tr><th>client<th>stored messages\
<th>pending bytes<th>missed<th>state";

/// The state of a session, as the page shows it.
#[derive(Clone, Copy)]
pub enum RowState {
    /// Its client is connected.
    Connected,
    /// Its client is not connected.
    Away,
    /// It has no room for another message.
    Full,
    /// Its client is connected and reads more slowly than it must.
    Slow,
}

/// A row of the page: a session.
#[derive(Drop)]
pub struct SessionRow {
    /// The client identifier.
    pub client: Text,
    /// Messages that the session stores.
    pub stored_messages: u64,
    /// Bytes pending on its connection.
    pub pending_bytes: u64,
    /// Copies that the client missed.
    pub missed: u64,
    /// Its state.
    pub state: RowState,
}

impl RowState {
    // The word of the page for it.
    fn word(self) -> &'static str
        ensures { result.now ≡ state_word self }
    {
        match self {
            RowState::Connected => "connected",
            RowState::Away => "away",
            RowState::Full => "full",
            RowState::Slow => "slow",
        }
    }
}

// Writes a row of the table of sessions.
fn write_row<W: Write>(output: &mut W, row: &SessionRow) -> io::Result<()>
    ensures { OnOk result (Appends (W.contents output.old) (W.contents output.new)
        (row_text row.now)) }
{
    let client = HtmlEscaped(row.client.as_str());
    let (stored, pending) = (row.stored_messages, row.pending_bytes);
    let (missed, state) = (row.missed, row.state.word());
    writeln!(
        output,
        "<tr><td>{client}<td>{stored}<td>{pending}<td>{missed}<td>{state}"
    )
}

// Writes the rows of the table of sessions.
fn write_rows<W: Write>(output: &mut W, rows: &[SessionRow]) -> io::Result<()>
    ensures { OnOk result (Appends (W.contents output.old) (W.contents output.new)
        (flat_map row_text rows.now)) }
{
    for row in rows {
        write_row(output, row)?;
    }
    Ok(())
}

// A row of a list: its heading and its number.
#[derive(Clone, Copy)]
struct Item(&'static str, u64);

// Writes a row of counters, one for each quality of service, the first at `place`.
fn write_by_qos<W: Write>(
    output: &mut W,
    heading: &str,
    counts: &[u64; COUNTERS],
    place: usize,
) -> io::Result<()>
    requires { place < 40 }
    ensures { OnOk result (Appends (W.contents output.old) (W.contents output.new)
        (by_qos_row heading.now counts.now place)) }
{
    let (first, second, third) = (counts[place], counts[place + 1], counts[place + 2]);
    writeln!(
        output,
        "<tr><th>{heading}<td>{first}<td>{second}<td>{third}"
    )
}

// Writes a row of a list.
fn write_item<W: Write>(output: &mut W, heading: &str, number: u64) -> io::Result<()>
    ensures { OnOk result (Appends (W.contents output.old) (W.contents output.new)
        (item_text heading.now number)) }
{
    writeln!(output, "<tr><th>{heading}<td>{number}")
}

// Writes the rows of a list.
fn write_items<W: Write>(output: &mut W, items: &[Item]) -> io::Result<()>
    ensures { OnOk result (Appends (W.contents output.old) (W.contents output.new)
        (flat_map (λ i. item_text i.0.now i.1) items.now)) }
{
    for item in items {
        write_item(output, item.0, item.1)?;
    }
    Ok(())
}

// Writes a list under a title.
fn write_list<W: Write>(output: &mut W, title: &str, items: &[Item]) -> io::Result<()>
    ensures { OnOk result (Appends (W.contents output.old) (W.contents output.new)
        (title_text title.now
        ++ (flat_map (λ i. item_text i.0.now i.1) items.now ++ codes "</table>\n"))) }
{
    writeln!(output, "<h2>{title}</h2>\n<table>")?;
    write_items(output, items)?;
    writeln!(output, "</table>")
}

// Writes the gauges.
fn write_gauges<W: Write>(output: &mut W, gauges: Gauges) -> io::Result<()>
    ensures { OnOk result (Appends (W.contents output.old) (W.contents output.new)
        (gauges_text gauges)) }
{
    let items = [
        Item("connections", gauges.connections),
        Item("sessions", gauges.sessions),
        Item("subscriptions", gauges.subscriptions),
        Item("retained messages", gauges.retained),
        Item("stored messages", gauges.stored_messages),
        Item("pending bytes", gauges.pending_bytes),
    ];
    write_list(output, "Now", &items)
}

// Writes the counters of messages.
fn write_messages<W: Write>(output: &mut W, counts: &[u64; COUNTERS]) -> io::Result<()>
    ensures { OnOk result (Appends (W.contents output.old) (W.contents output.new)
        (messages_text counts.now)) }
{
    writeln!(output, "{MESSAGES}")?;
    write_by_qos(output, "messages in", counts, 0)?;
    write_by_qos(output, "bytes in", counts, 3)?;
    write_by_qos(output, "messages out", counts, 6)?;
    write_by_qos(output, "bytes out", counts, 9)?;
    writeln!(output, "</table>")
}

// Writes the counters of missed messages.
fn write_missed<W: Write>(output: &mut W, counts: &[u64; COUNTERS]) -> io::Result<()>
    ensures { OnOk result (Appends (W.contents output.old) (W.contents output.new)
        (missed_text counts.now)) }
{
    let items = [
        Item("session full", counts[12]),
        Item("output full", counts[13]),
    ];
    write_list(output, "Missed", &items)
}

// Writes the table of sessions.
fn write_sessions<W: Write>(output: &mut W, rows: &[SessionRow]) -> io::Result<()>
    ensures { OnOk result (Appends (W.contents output.old) (W.contents output.new)
        (sessions_text rows.now)) }
{
    writeln!(output, "{SESSIONS}")?;
    write_rows(output, rows)?;
    writeln!(output, "</table></div>")
}

// Writes the counters of closed connections.
fn write_closed<W: Write>(output: &mut W, counts: &[u64; COUNTERS]) -> io::Result<()>
    ensures { OnOk result (Appends (W.contents output.old) (W.contents output.new)
        (closed_text counts.now)) }
{
    let items = [
        Item("malformed packet (C1)", counts[14]),
        Item("unexpected packet (C2)", counts[15]),
        Item("CONNECT refused (C3)", counts[16]),
        Item("session lost (C4)", counts[17]),
        Item("keep-alive expired (C5)", counts[18]),
        Item("out of memory (C6)", counts[19]),
        Item("client disconnected (C7)", counts[20]),
        Item("session full (C8)", counts[21]),
        Item("client connected again (C9)", counts[22]),
        Item("connection ended by peer (C10)", counts[23]),
        Item("receive window exceeded (C11)", counts[24]),
        Item("no CONNECT in time (C12)", counts[25]),
        Item("too many retained messages (C13)", counts[26]),
    ];
    write_list(output, "Closed", &items)
}

// Writes the counters of refused CONNECT packets.
fn write_refused<W: Write>(output: &mut W, counts: &[u64; COUNTERS]) -> io::Result<()>
    ensures { OnOk result (Appends (W.contents output.old) (W.contents output.new)
        (refused_text counts.now)) }
{
    let items = [
        Item("unacceptable protocol version (1)", counts[27]),
        Item("identifier rejected (2)", counts[28]),
        Item("server unavailable (3)", counts[29]),
        Item("bad user name or password (4)", counts[30]),
        Item("not authorized (5)", counts[31]),
    ];
    write_list(output, "Refused", &items)
}

// Writes the other counters.
fn write_totals<W: Write>(output: &mut W, counts: &[u64; COUNTERS]) -> io::Result<()>
    ensures { OnOk result (Appends (W.contents output.old) (W.contents output.new)
        (totals_text counts.now)) }
{
    let items = [
        Item("connects accepted", counts[32]),
        Item("sessions ended", counts[33]),
        Item("subscriptions stored", counts[34]),
        Item("subscriptions removed", counts[35]),
        Item("wills published", counts[36]),
        Item("wills dropped", counts[37]),
        Item("bytes read", counts[38]),
        Item("bytes written", counts[39]),
        Item("connections turned away", counts[40]),
        Item("rounds", counts[41]),
        Item("microseconds in rounds", counts[42]),
    ];
    write_list(output, "Total", &items)
}

// Writes the counters of connections.
fn write_connections<W: Write>(output: &mut W, counts: &[u64; COUNTERS]) -> io::Result<()>
    ensures { OnOk result (Appends (W.contents output.old) (W.contents output.new)
        (connections_text counts.now)) }
{
    write_closed(output, counts)?;
    write_refused(output, counts)?;
    write_totals(output, counts)
}

/// Appends the status page. It shows the metrics and the first [`MAX_ROWS`] of `rows`; the caller
/// sorts them. The page has no scripts, and refreshes every five seconds.
pub fn write_page<W: Write>(
    output: &mut W,
    metrics: &Metrics,
    rows: &[SessionRow],
) -> io::Result<()>
    ensures { OnOk result (Appends (W.contents output.old) (W.contents output.new)
        (page_text metrics.now rows.now)) }
{
    writeln!(output, "{HEAD}")?;
    write_gauges(output, metrics.gauges())?;
    write_messages(output, metrics.counts())?;
    write_missed(output, metrics.counts())?;
    write_sessions(output, &rows[..rows.len().min(MAX_ROWS)])?;
    write_connections(output, metrics.counts())?;
    writeln!(output, "</main>")
}
