//! The lines of each step's result.

ghost use Rattle.std.specs.Prelude.{◌++◌, OnOk};
ghost use Rattle.mq_replay.specs.Prelude.{flat_map, Appends, anew_line, answer_lines, bytes_line, closed_line, delivery_lines, dropped_line, happening_line, idle_line, left_line, lost_line, opening_lines, published_line, refused_line, restarted_lines, settling_lines, ticked_line};

use crate::words::{HandedText, IdWord};
use mq_end::{CloseReason, Happening, PublishRefusal};
use mq_packet::PacketId;
use mq_schedule::{BytesWord, SideWord};
use mq_world::{Answer, DeliveredBytes, Opening, Settling, Side};
use std::io;
use std::io::Write;

// Whether a message was accepted.
fn write_published<W: Write>(
    output: &mut W,
    side: Side,
    outcome: Result<Option<PacketId>, PublishRefusal>,
) -> io::Result<()>
    ensures { OnOk result
        (Appends (W.contents output.old) (W.contents output.new) (published_line side outcome)) }
{
    let side = SideWord(side);
    match outcome {
        Ok(id) => writeln!(output, "{side} accepted {}", IdWord(id)),
        Err(why) => writeln!(output, "{side} refused {}", why.code()),
    }
}

// Writes an event of an end. No event of a world makes an end subscribe, so those events have no
// line.
fn write_happening<W: Write>(output: &mut W, side: Side, happening: &Happening) -> io::Result<()>
    ensures { OnOk result
        (Appends (W.contents output.old) (W.contents output.new) (happening_line side happening.now)) }
{
    let side = SideWord(side);
    match happening {
        Happening::Up { session_present } => {
            let present = u8::from(*session_present);
            writeln!(output, "{side} up {present}")
        }
        Happening::Handed(message) => writeln!(output, "{side} {}", HandedText(message)),
        Happening::Subscribe { .. }
        | Happening::Unsubscribe { .. }
        | Happening::SubAck { .. }
        | Happening::UnsubAck(_) => Ok(()),
        Happening::Pong => writeln!(output, "{side} pong"),
    }
}

// Writes the events of some bytes, in order.
fn write_happenings<W: Write>(
    output: &mut W,
    side: Side,
    happenings: &[Happening],
) -> io::Result<()>
    ensures { OnOk result (Appends (W.contents output.old) (W.contents output.new)
        (flat_map (happening_line side) happenings.now)) }
{
    for happening in happenings {
        write_happening(output, side, happening)?;
    }
    Ok(())
}

// Writes the reason if an end closed its connection.
fn write_closed<W: Write>(output: &mut W, side: Side, closed: Option<CloseReason>) -> io::Result<()>
    ensures { OnOk result
        (Appends (W.contents output.old) (W.contents output.new) (closed_line side closed)) }
{
    match closed {
        Some(why) => writeln!(output, "{} closed {}", SideWord(side), why.code()),
        None => Ok(()),
    }
}

// Writes that the connection of a side is lost, if it was open.
fn write_dropped<W: Write>(output: &mut W, side: Side, was_open: bool) -> io::Result<()>
    ensures { OnOk result
        (Appends (W.contents output.old) (W.contents output.new) (dropped_line side was_open)) }
{
    if was_open {
        return writeln!(output, "{} dropped", SideWord(side));
    }
    Ok(())
}

// The bytes that came to a side.
fn write_bytes<W: Write>(output: &mut W, side: Side, bytes: &[u8]) -> io::Result<()>
    ensures { OnOk result
        (Appends (W.contents output.old) (W.contents output.new) (bytes_line side bytes.now)) }
{
    writeln!(output, "to {} {}", SideWord(side), BytesWord(bytes))
}

// Writes that bytes were lost, if they were.
fn write_lost<W: Write>(output: &mut W, lost: bool) -> io::Result<()>
    ensures { OnOk result
        (Appends (W.contents output.old) (W.contents output.new) (lost_line lost)) }
{
    if lost {
        return writeln!(output, "lost");
    }
    Ok(())
}

// Writes the bytes, whether they were lost, and their effect.
fn write_delivery<W: Write>(output: &mut W, delivery: &DeliveredBytes) -> io::Result<()>
    ensures { OnOk result
        (Appends (W.contents output.old) (W.contents output.new) (delivery_lines delivery.now)) }
{
    let side = delivery.side;
    write_bytes(output, side, delivery.bytes.as_slice())?;
    write_lost(output, delivery.lost)?;
    write_happenings(output, side, delivery.progress.happenings.as_slice())?;
    write_closed(output, side, delivery.progress.closed)
}

// Writes the deliveries in order.
fn write_deliveries<W: Write>(output: &mut W, deliveries: &[DeliveredBytes]) -> io::Result<()>
    ensures { OnOk result (Appends (W.contents output.old) (W.contents output.new)
        (flat_map delivery_lines deliveries.now)) }
{
    for delivery in deliveries {
        write_delivery(output, delivery)?;
    }
    Ok(())
}

// That memory ran out for CONNECT.
fn write_refused<W: Write>(output: &mut W, refused: bool) -> io::Result<()>
    ensures { OnOk result
        (Appends (W.contents output.old) (W.contents output.new) (refused_line refused)) }
{
    if refused {
        return writeln!(output, "{} refused P5", SideWord(Side::Client));
    }
    Ok(())
}

// The connections that are lost, and whether the new one was refused.
fn write_opening<W: Write>(output: &mut W, opening: Opening) -> io::Result<()>
    ensures { OnOk result
        (Appends (W.contents output.old) (W.contents output.new) (opening_lines opening)) }
{
    write_dropped(output, Side::Client, opening.client_dropped)?;
    write_dropped(output, Side::Server, opening.server_dropped)?;
    write_refused(output, opening.refused)
}

// That the client continues after its program ended, or that memory ran out for that.
fn write_anew<W: Write>(output: &mut W, outcome: Result<(), PublishRefusal>) -> io::Result<()>
    ensures { OnOk result
        (Appends (W.contents output.old) (W.contents output.new) (anew_line outcome)) }
{
    let client = SideWord(Side::Client);
    match outcome {
        Ok(()) => writeln!(output, "{client} restarted"),
        Err(why) => writeln!(output, "{client} refused {}", why.code()),
    }
}

// The connection that is lost when the client's program ends, and whether the client continues.
fn write_restarted<W: Write>(
    output: &mut W,
    was_open: bool,
    outcome: Result<(), PublishRefusal>,
) -> io::Result<()>
    ensures { OnOk result
        (Appends (W.contents output.old) (W.contents output.new) (restarted_lines was_open outcome)) }
{
    write_dropped(output, Side::Client, was_open)?;
    write_anew(output, outcome)
}

// That the client left, or why it could not.
fn write_left<W: Write>(output: &mut W, outcome: Result<(), PublishRefusal>) -> io::Result<()>
    ensures { OnOk result
        (Appends (W.contents output.old) (W.contents output.new) (left_line outcome)) }
{
    let client = SideWord(Side::Client);
    match outcome {
        Ok(()) => write_closed(output, Side::Client, Some(CloseReason::Left)),
        Err(why) => writeln!(output, "{client} refused {}", why.code()),
    }
}

// Writes the reason if a side closed its connection at a `tick`, or that an allocation failed.
fn write_ticked<W: Write>(
    output: &mut W,
    side: Side,
    outcome: Result<Option<CloseReason>, PublishRefusal>,
) -> io::Result<()>
    ensures { OnOk result
        (Appends (W.contents output.old) (W.contents output.new) (ticked_line side outcome)) }
{
    match outcome {
        Ok(closed) => write_closed(output, side, closed),
        Err(why) => writeln!(output, "{} refused {}", SideWord(side), why.code()),
    }
}

// Whether nothing waits any more.
fn write_idle<W: Write>(output: &mut W, idle: bool) -> io::Result<()>
    ensures { OnOk result
        (Appends (W.contents output.old) (W.contents output.new) (idle_line idle)) }
{
    if idle {
        return writeln!(output, "idle yes");
    }
    writeln!(output, "idle no")
}

// Writes the opening, the deliveries after it, and whether both sides are idle.
fn write_settling<W: Write>(output: &mut W, settling: &Settling) -> io::Result<()>
    ensures { OnOk result
        (Appends (W.contents output.old) (W.contents output.new) (settling_lines settling.now)) }
{
    write_opening(output, settling.opening)?;
    write_deliveries(output, settling.deliveries.as_slice())?;
    write_idle(output, settling.idle)
}

/// Writes the result of a step.
pub(crate) fn write_answer<W: Write>(output: &mut W, answer: &Answer) -> io::Result<()>
    ensures { OnOk result
        (Appends (W.contents output.old) (W.contents output.new) (answer_lines answer.now)) }
{
    match answer {
        Answer::Published(side, outcome) => write_published(output, *side, *outcome),
        Answer::Delivered(delivery) => write_delivery(output, delivery),
        Answer::Dropped(side, was_open) => write_dropped(output, *side, *was_open),
        Answer::Restarted(was_open, outcome) => write_restarted(output, *was_open, *outcome),
        Answer::Left(outcome) => write_left(output, *outcome),
        Answer::Opened(opening) => write_opening(output, *opening),
        Answer::Ticked(side, outcome) => write_ticked(output, *side, *outcome),
        Answer::Settled(settling) => write_settling(output, settling),
    }
}
