//! Metrics as Prometheus text.

ghost use Rattle.std.specs.Prelude.{◌++◌, ◌<◌, codes, OnOk};
ghost use Rattle.mq_status.specs.Prelude.{Appends, flat_map, by_qos_text, counters_text, head_text, memory_text, prometheus_text, rounds_text, sample_text, seconds_text, single_text, traffic_text, wills_text};
ghost use Rattle.mq_status.specs.Prometheus.{closed_text, gauges_text, messages_text, missed_text, refused_text, sessions_text};

use crate::counter::COUNTERS;
use crate::metrics::{Gauges, Metrics};
use std::io;
use std::io::Write;

// A sample of a family, and the value of its label.
#[derive(Clone, Copy)]
struct Sample(&'static str, u64);

// Writes the head of a family.
fn write_head<W: Write>(output: &mut W, name: &str, help: &str, kind: &str) -> io::Result<()>
    ensures { OnOk result (Appends (W.contents output.old) (W.contents output.new)
        (head_text name.now help.now kind.now)) }
{
    writeln!(output, "# HELP {name} {help}\n# TYPE {name} {kind}")
}

// Writes a sample of a family.
fn write_sample<W: Write>(
    output: &mut W,
    name: &str,
    key: &str,
    label: &str,
    value: u64,
) -> io::Result<()>
    ensures { OnOk result (Appends (W.contents output.old) (W.contents output.new)
        (sample_text name.now key.now label.now value)) }
{
    writeln!(output, "{name}{{{key}=\"{label}\"}} {value}")
}

// Writes the samples of a family.
fn write_samples<W: Write>(
    output: &mut W,
    name: &str,
    key: &str,
    samples: &[Sample],
) -> io::Result<()>
    ensures { OnOk result (Appends (W.contents output.old) (W.contents output.new)
        (flat_map (λ s. sample_text name.now key.now s.0.now s.1) samples.now)) }
{
    for sample in samples {
        write_sample(output, name, key, sample.0, sample.1)?;
    }
    Ok(())
}

// Writes a family of counters.
fn write_family<W: Write>(
    output: &mut W,
    name: &str,
    help: &str,
    key: &str,
    samples: &[Sample],
) -> io::Result<()>
    ensures { OnOk result (Appends (W.contents output.old) (W.contents output.new)
        (head_text name.now help.now (codes "counter")
        ++ flat_map (λ s. sample_text name.now key.now s.0.now s.1) samples.now)) }
{
    write_head(output, name, help, "counter")?;
    write_samples(output, name, key, samples)
}

// Writes a family of one sample.
fn write_single<W: Write>(
    output: &mut W,
    name: &str,
    help: &str,
    kind: &str,
    value: u64,
) -> io::Result<()>
    ensures { OnOk result (Appends (W.contents output.old) (W.contents output.new)
        (single_text name.now help.now kind.now value)) }
{
    write_head(output, name, help, kind)?;
    writeln!(output, "{name} {value}")
}

// Writes a family of counters with one sample for each quality of service, the first at `place`.
fn write_by_qos<W: Write>(
    output: &mut W,
    name: &str,
    help: &str,
    counts: &[u64; COUNTERS],
    place: usize,
) -> io::Result<()>
    requires { place < 40 }
    ensures { OnOk result (Appends (W.contents output.old) (W.contents output.new)
        (by_qos_text name.now help.now counts.now place)) }
{
    let samples = [
        Sample("0", counts[place]),
        Sample("1", counts[place + 1]),
        Sample("2", counts[place + 2]),
    ];
    write_family(output, name, help, "qos", &samples)
}

// Writes the counters of accepted messages and of placed copies.
fn write_messages<W: Write>(output: &mut W, counts: &[u64; COUNTERS]) -> io::Result<()>
    ensures { OnOk result (Appends (W.contents output.old) (W.contents output.new)
        (messages_text counts.now)) }
{
    let help = "Messages accepted from clients.";
    write_by_qos(output, "mqtt_messages_in_total", help, counts, 0)?;
    let help = "Topic and payload bytes of messages accepted from clients.";
    write_by_qos(output, "mqtt_message_bytes_in_total", help, counts, 3)?;
    let help = "Copies of messages placed for clients.";
    write_by_qos(output, "mqtt_messages_out_total", help, counts, 6)?;
    let help = "Topic and payload bytes of copies placed for clients.";
    write_by_qos(output, "mqtt_message_bytes_out_total", help, counts, 9)
}

// Writes the counters of missed messages.
fn write_missed<W: Write>(output: &mut W, counts: &[u64; COUNTERS]) -> io::Result<()>
    ensures { OnOk result (Appends (W.contents output.old) (W.contents output.new)
        (missed_text counts.now)) }
{
    let samples = [
        Sample("session_full", counts[12]),
        Sample("output_full", counts[13]),
    ];
    let (name, help) = ("mqtt_messages_missed_total", "Copies that a client missed.");
    write_family(output, name, help, "reason", &samples)
}

// Writes the counters of closed connections.
fn write_closed<W: Write>(output: &mut W, counts: &[u64; COUNTERS]) -> io::Result<()>
    ensures { OnOk result (Appends (W.contents output.old) (W.contents output.new)
        (closed_text counts.now)) }
{
    let samples = [
        Sample("C1", counts[14]),
        Sample("C2", counts[15]),
        Sample("C3", counts[16]),
        Sample("C4", counts[17]),
        Sample("C5", counts[18]),
        Sample("C6", counts[19]),
        Sample("C7", counts[20]),
        Sample("C8", counts[21]),
        Sample("C9", counts[22]),
        Sample("C10", counts[23]),
        Sample("C11", counts[24]),
        Sample("C12", counts[25]),
        Sample("C13", counts[26]),
    ];
    let (name, help) = (
        "mqtt_connections_closed_total",
        "Connections closed, by reason.",
    );
    write_family(output, name, help, "code", &samples)
}

// Writes the counters of refused CONNECT packets.
fn write_refused<W: Write>(output: &mut W, counts: &[u64; COUNTERS]) -> io::Result<()>
    ensures { OnOk result (Appends (W.contents output.old) (W.contents output.new)
        (refused_text counts.now)) }
{
    let samples = [
        Sample("1", counts[27]),
        Sample("2", counts[28]),
        Sample("3", counts[29]),
        Sample("4", counts[30]),
        Sample("5", counts[31]),
    ];
    let help = "CONNECT packets refused, by return code.";
    write_family(
        output,
        "mqtt_connects_refused_total",
        help,
        "code",
        &samples,
    )
}

// Writes the counters of sessions and subscriptions.
fn write_sessions<W: Write>(output: &mut W, counts: &[u64; COUNTERS]) -> io::Result<()>
    ensures { OnOk result (Appends (W.contents output.old) (W.contents output.new)
        (sessions_text counts.now)) }
{
    let help = "CONNECT packets accepted.";
    write_single(
        output,
        "mqtt_connects_accepted_total",
        help,
        "counter",
        counts[32],
    )?;
    let help = "Sessions removed.";
    write_single(
        output,
        "mqtt_sessions_ended_total",
        help,
        "counter",
        counts[33],
    )?;
    let help = "Subscriptions stored.";
    write_single(output, "mqtt_subscribes_total", help, "counter", counts[34])?;
    let help = "Subscriptions removed by UNSUBSCRIBE.";
    write_single(
        output,
        "mqtt_unsubscribes_total",
        help,
        "counter",
        counts[35],
    )
}

// Writes the counters of wills.
fn write_wills<W: Write>(output: &mut W, counts: &[u64; COUNTERS]) -> io::Result<()>
    ensures { OnOk result (Appends (W.contents output.old) (W.contents output.new)
        (wills_text counts.now)) }
{
    let help = "Wills published.";
    write_single(output, "mqtt_wills_total", help, "counter", counts[36])?;
    let help = "Wills dropped.";
    write_single(
        output,
        "mqtt_wills_dropped_total",
        help,
        "counter",
        counts[37],
    )
}

// Writes the counters of the bytes and connections that the caller counts.
fn write_traffic<W: Write>(output: &mut W, counts: &[u64; COUNTERS]) -> io::Result<()>
    ensures { OnOk result (Appends (W.contents output.old) (W.contents output.new)
        (traffic_text counts.now)) }
{
    let help = "Bytes read from connections.";
    write_single(output, "mqtt_bytes_read_total", help, "counter", counts[38])?;
    let help = "Bytes written to connections.";
    write_single(
        output,
        "mqtt_bytes_written_total",
        help,
        "counter",
        counts[39],
    )?;
    let help = "Connections closed at once because there were too many.";
    write_single(
        output,
        "mqtt_connections_turned_away_total",
        help,
        "counter",
        counts[40],
    )
}

// Writes the line of the rounds' time in seconds.
#[tactic(auto, using(crate::proofs::Padded::zeros_before))]
fn write_seconds<W: Write>(output: &mut W, microseconds: u64) -> io::Result<()>
    ensures { OnOk result (Appends (W.contents output.old) (W.contents output.new)
        (seconds_text microseconds)) }
{
    let (seconds, rest) = (microseconds / 1_000_000, microseconds % 1_000_000);
    writeln!(output, "mqtt_round_seconds_sum {seconds}.{rest:06}")
}

// Writes the number of rounds of the event loop, and their time in seconds.
fn write_rounds<W: Write>(output: &mut W, counts: &[u64; COUNTERS]) -> io::Result<()>
    ensures { OnOk result (Appends (W.contents output.old) (W.contents output.new)
        (rounds_text counts.now)) }
{
    let help = "Time of the event loop's rounds, without waiting.";
    write_head(output, "mqtt_round_seconds", help, "summary")?;
    write_seconds(output, counts[42])?;
    let rounds = counts[41];
    writeln!(output, "mqtt_round_seconds_count {rounds}")
}

// Writes the gauges of the broker.
fn write_gauges<W: Write>(output: &mut W, gauges: Gauges) -> io::Result<()>
    ensures { OnOk result (Appends (W.contents output.old) (W.contents output.new)
        (gauges_text gauges)) }
{
    let help = "Connections that are open.";
    write_single(
        output,
        "mqtt_connections",
        help,
        "gauge",
        gauges.connections,
    )?;
    let help = "Sessions that are stored.";
    write_single(output, "mqtt_sessions", help, "gauge", gauges.sessions)?;
    let help = "Subscriptions that are stored.";
    write_single(
        output,
        "mqtt_subscriptions",
        help,
        "gauge",
        gauges.subscriptions,
    )?;
    let help = "Retained messages.";
    write_single(
        output,
        "mqtt_retained_messages",
        help,
        "gauge",
        gauges.retained,
    )
}

// Writes the gauges of memory.
fn write_memory<W: Write>(output: &mut W, gauges: Gauges) -> io::Result<()>
    ensures { OnOk result (Appends (W.contents output.old) (W.contents output.new)
        (memory_text gauges)) }
{
    let help = "Messages stored in sessions.";
    write_single(
        output,
        "mqtt_stored_messages",
        help,
        "gauge",
        gauges.stored_messages,
    )?;
    let help = "Bytes pending on connections.";
    write_single(
        output,
        "mqtt_pending_bytes",
        help,
        "gauge",
        gauges.pending_bytes,
    )
}

// Writes the counters.
fn write_counters<W: Write>(output: &mut W, counts: &[u64; COUNTERS]) -> io::Result<()>
    ensures { OnOk result (Appends (W.contents output.old) (W.contents output.new)
        (counters_text counts.now)) }
{
    write_messages(output, counts)?;
    write_missed(output, counts)?;
    write_closed(output, counts)?;
    write_refused(output, counts)?;
    write_sessions(output, counts)?;
    write_wills(output, counts)?;
    write_traffic(output, counts)?;
    write_rounds(output, counts)
}

/// Appends the metrics in the text format of Prometheus, version 0.0.4.
pub fn write_prometheus<W: Write>(output: &mut W, metrics: &Metrics) -> io::Result<()>
    ensures { OnOk result (Appends (W.contents output.old) (W.contents output.new)
        (prometheus_text metrics.now)) }
{
    write_gauges(output, metrics.gauges())?;
    write_memory(output, metrics.gauges())?;
    write_counters(output, metrics.counts())
}
