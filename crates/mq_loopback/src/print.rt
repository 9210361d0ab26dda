//! The lines of `loopback`.

ghost use Rattle.std.specs.Prelude.{◌≡◌, ◌++◌, IfOk, OnOk, map};
ghost use Rattle.mq_loopback.specs.Prelude.{flat_map, Appends, bad_line, collected_lines, message_line, play_end_line, play_end_status, role_lines, unread_line, verdict_lines, verdict_status};

use crate::client::{Client, Role};
use crate::rig::RunError;
use crate::verdict::Verdict;
use mq_client::write_halt;
use mq_packet::{Escaped, Message};
use mq_schedule::BytesWord;
use mq_serve::write_end;
use mq_wire::Text;
use std::io;
use std::io::Write;

/// The status for a file or line that can't be read.
const BAD_INPUT: u8 = 2;

// Writes a message that a client of this name collected.
fn write_message<W: Write>(output: &mut W, name: &Text, message: &Message) -> io::Result<()>
    ensures { OnOk result (Appends (W.contents output.old) (W.contents output.new) (message_line name.now message.now)) }
{
    let name = Escaped(name.as_str());
    let topic = Escaped(message.topic.as_str());
    let payload = BytesWord(message.payload.as_slice());
    writeln!(output, "{name} {topic} {payload}")
}

// Writes the messages that a client of this name collected.
fn write_messages<W: Write>(output: &mut W, name: &Text, messages: &[Message]) -> io::Result<()>
    ensures { OnOk result (Appends (W.contents output.old) (W.contents output.new) (flat_map (message_line name.now) messages.now)) }
{
    for message in messages {
        write_message(output, name, message)?;
    }
    Ok(())
}

// Writes the messages that a client collected, if it is a collector.
fn write_client<W: Write>(output: &mut W, client: &Client, messages: &[Message]) -> io::Result<()>
    ensures { OnOk result (Appends (W.contents output.old) (W.contents output.new)
        (role_lines client.now.name client.now.role messages.now)) }
{
    match client.role {
        Role::Collector(_) => write_messages(output, &client.name, messages),
        Role::Publisher(_) => Ok(()),
    }
}

// Writes the messages that each client collected.
fn write_collected<W: Write>(
    output: &mut W,
    clients: &[Client],
    collected: &[Vec<Message>],
) -> io::Result<()>
    ensures { OnOk result (Appends (W.contents output.old) (W.contents output.new)
        (collected_lines clients.now (map (λ v. v.items) collected.now))) }
{
    let mut left = clients;
    let mut lists = collected;
    while let [client, others @ ..] = left {
        let [messages, more @ ..] = lists else {
            return Ok(());
        };
        write_client(output, client, messages.as_slice())?;
        left = others;
        lists = more;
    }
    Ok(())
}

// Writes a verdict.
fn write_verdict<W: Write>(output: &mut W, verdict: Verdict) -> io::Result<()>
    ensures { OnOk result (Appends (W.contents output.old) (W.contents output.new) (verdict_lines verdict)) }
{
    match verdict.is_equal {
        true => writeln!(output, "replay equal")?,
        false => writeln!(output, "replay differs")?,
    }
    match verdict.is_audited {
        true => writeln!(output, "audit yes"),
        false => writeln!(output, "audit no"),
    }
}

// 0 if both verdicts are positive.
fn status_of(verdict: Verdict) -> u8
    ensures { result ≡ verdict_status verdict }
{
    if verdict.is_equal && verdict.is_audited {
        0
    } else {
        1
    }
}

/// Writes the messages that each collector collected, and the verdict. Returns the status.
pub fn write_played<W: Write>(
    output: &mut W,
    clients: &[Client],
    collected: &[Vec<Message>],
    verdict: Verdict,
) -> io::Result<u8>
    ensures printed { OnOk result (Appends (W.contents output.old) (W.contents output.new)
        (collected_lines clients.now (map (λ v. v.items) collected.now) ++ verdict_lines verdict)) }
    ensures status { IfOk result (λ status. status ≡ verdict_status verdict) }
{
    write_collected(output, clients, collected)?;
    write_verdict(output, verdict)?;
    Ok(status_of(verdict))
}

/// Writes why clients and broker ended early, and returns the status.
pub(crate) fn write_play_end<W: Write>(output: &mut W, end: RunError) -> io::Result<u8>
    ensures printed { OnOk result (Appends (W.contents output.old) (W.contents output.new) (play_end_line end)) }
    ensures status { IfOk result (λ status. status ≡ play_end_status end) }
{
    match end {
        RunError::Broker(end) => write_end(output, end),
        RunError::Client(halt) => write_halt(output, halt),
    }
}

/// Writes the line that makes a text invalid, and returns the status.
pub(crate) fn write_bad_line<W: Write>(output: &mut W, line: usize) -> io::Result<u8>
    ensures printed { OnOk result (Appends (W.contents output.old) (W.contents output.new) (bad_line line)) }
    ensures status { IfOk result (λ status. status ≡ BAD_INPUT) }
{
    writeln!(output, "line {line}: not a client")?;
    Ok(BAD_INPUT)
}

/// Writes that a file can't be read, and returns the status.
pub(crate) fn write_unread<W: Write>(output: &mut W) -> io::Result<u8>
    ensures printed { OnOk result (Appends (W.contents output.old) (W.contents output.new) unread_line) }
    ensures status { IfOk result (λ status. status ≡ BAD_INPUT) }
{
    writeln!(output, "file not read")?;
    Ok(BAD_INPUT)
}
