//! The fields of a format, as they are printed.

ghost use Rattle.std.specs.Prelude.{◌≡◌, ◌++◌, OnOk, codes, decimal};
ghost use Rattle.mq_format.specs.Prelude.{digits_text, field_text, filler, first_entry, front, head_text, id_entry, id_number, json_text, last_entry, middle_text, number_entry, payload_text, stamp_text, text_entry, padded, instant_text};

use crate::field::{Field, Layout};
use crate::instant::{put_instant, put_unix};
use crate::json::put_quoted;
use crate::moment::Moment;
use crate::pad::{put_decimal, put_hexadecimal, put_number, put_padded};
use crate::style::Envelope;
use itoa::Buffer;
use mq_packet::PacketId;
use std::alloc::{AllocError, Global};

// The front of a text, with at most this many bytes.
fn front(text: &[u8], most: Option<usize>) -> &[u8]
    ensures { result.now ≡ front most text.now }
{
    match most {
        Some(most) => &text[..most.min(text.len())],
        None => text,
    }
}

// The byte that pads numbers and payloads.
fn filler(layout: Layout) -> u8
    ensures { result ≡ filler layout }
{
    if layout.is_zero { b'0' } else { b' ' }
}

// Appends a payload in a layout.
fn put_payload(out: &mut Vec<u8>, payload: &[u8], layout: Layout) -> Result<(), AllocError>
    ensures { OnOk result (out.new.items ≡ out.old.items ++ payload_text layout payload.now) }
{
    if layout.width == 0 {
        return put_padded(out, payload, layout, filler(layout));
    }
    put_padded(
        out,
        front(payload, Some(layout.width)),
        layout,
        filler(layout),
    )
}

// Appends a payload in hexadecimal digits, in a layout.
fn put_digits(
    alloc: Global,
    out: &mut Vec<u8>,
    payload: &[u8],
    is_upper: bool,
    layout: Layout,
) -> Result<(), AllocError>
    ensures { OnOk result
        (out.new.items ≡ out.old.items ++ digits_text is_upper layout payload.now) }
{
    if layout.width == 0 {
        return put_hexadecimal(out, payload, is_upper);
    }
    let mut text = Vec::new(alloc);
    put_hexadecimal(&mut text, front(payload, Some(layout.width / 2)), is_upper)?;
    put_padded(out, text.as_slice(), layout, filler(layout))
}

// Appends a number in a layout.
fn put_padded_number(out: &mut Vec<u8>, number: u64, layout: Layout) -> Result<(), AllocError>
    ensures { OnOk result
        (out.new.items ≡ out.old.items ++ padded layout (filler layout) (decimal number)) }
{
    let mut buffer = Buffer::new();
    put_padded(
        out,
        buffer.format(number).as_bytes(),
        layout,
        filler(layout),
    )
}

// Appends the date and the time of day with the zone, in a layout.
fn put_time_field(
    alloc: Global,
    out: &mut Vec<u8>,
    moment: &Moment,
    layout: Layout,
) -> Result<(), AllocError>
    ensures { OnOk result (out.new.items ≡ out.old.items
        ++ padded layout 32 (front layout.precision (instant_text moment.now ++ codes "+0000"))) }
{
    let mut text = Vec::new(alloc);
    put_instant(&mut text, moment)?;
    text.extend_from_slice(b"+0000")?;
    put_padded(out, front(text.as_slice(), layout.precision), layout, b' ')
}

// Appends the time of a message in JSON, with six decimals.
fn put_stamp(out: &mut Vec<u8>, moment: &Moment) -> Result<(), AllocError>
    ensures { OnOk result (out.new.items ≡ out.old.items ++ stamp_text moment.now) }
{
    put_instant(out, moment)?;
    out.extend_from_slice(b".")?;
    put_number(out, u64::from(moment.nanoseconds / 1_000), 6)?;
    out.extend_from_slice(b"Z+0000")
}

// Appends the first entry of a message in JSON.
#[tactic(auto, unfolding(crate::specs::Format::first_entry))]
fn put_first_entry(out: &mut Vec<u8>, moment: &Moment) -> Result<(), AllocError>
    ensures { OnOk result (out.new.items ≡ out.old.items ++ first_entry moment.now) }
{
    out.extend_from_slice(b"{\"tst\":\"")?;
    put_stamp(out, moment)?;
    out.extend_from_slice(b"\"")
}

// Appends an entry with a number.
#[tactic(auto, unfolding(crate::specs::Format::number_entry))]
fn put_number_entry(out: &mut Vec<u8>, name: &[u8], number: u64) -> Result<(), AllocError>
    ensures { OnOk result (out.new.items ≡ out.old.items ++ number_entry name.now number) }
{
    out.extend_from_slice(name)?;
    put_decimal(out, number)
}

// Appends an entry with a text.
#[tactic(auto, unfolding(crate::specs::Format::text_entry))]
fn put_text_entry(out: &mut Vec<u8>, name: &[u8], text: &[u8]) -> Result<(), AllocError>
    ensures { OnOk result (out.new.items ≡ out.old.items ++ text_entry name.now text.now) }
{
    out.extend_from_slice(name)?;
    put_quoted(out, text)
}

// Appends the packet identifier of a message in JSON, if there is one.
#[tactic(auto, unfolding(crate::specs::Format::id_entry))]
fn put_id_entry(out: &mut Vec<u8>, id: Option<PacketId>) -> Result<(), AllocError>
    ensures { OnOk result (out.new.items ≡ out.old.items ++ id_entry id) }
{
    match id {
        Some(id) => put_number_entry(out, b",\"mid\":", u64::from(id.get())),
        None => Ok(()),
    }
}

// Appends the time, the topic and the quality of service of a message in JSON.
#[tactic(auto, unfolding(crate::specs::Format::head_text))]
fn put_head(out: &mut Vec<u8>, envelope: &Envelope<'_>) -> Result<(), AllocError>
    ensures { OnOk result (out.new.items ≡ out.old.items ++ head_text envelope.now) }
{
    let message = envelope.message;
    put_first_entry(out, &envelope.moment)?;
    put_text_entry(out, b",\"topic\":", message.topic.as_str().as_bytes())?;
    put_number_entry(out, b",\"qos\":", u64::from(message.qos.number()))
}

// Appends the numbers of a message that follow in JSON.
#[tactic(auto, unfolding(crate::specs::Format::middle_text))]
fn put_middle(out: &mut Vec<u8>, envelope: &Envelope<'_>) -> Result<(), AllocError>
    ensures { OnOk result (out.new.items ≡ out.old.items ++ middle_text envelope.now) }
{
    let message = envelope.message;
    put_number_entry(out, b",\"retain\":", u64::from(message.retain))?;
    put_number_entry(
        out,
        b",\"payloadlen\":",
        message.payload.as_slice().len() as u64,
    )?;
    put_id_entry(out, envelope.id)
}

// Appends the last entry of a message in JSON.
#[tactic(auto, unfolding(crate::specs::Format::last_entry))]
fn put_last_entry(out: &mut Vec<u8>, payload: &[u8]) -> Result<(), AllocError>
    ensures { OnOk result (out.new.items ≡ out.old.items ++ last_entry payload.now) }
{
    put_text_entry(out, b",\"payload\":", payload)?;
    out.extend_from_slice(b"}")
}

// Appends a message in JSON.
#[tactic(auto, unfolding(crate::specs::Format::json_text))]
fn put_json(out: &mut Vec<u8>, envelope: &Envelope<'_>) -> Result<(), AllocError>
    ensures { OnOk result (out.new.items ≡ out.old.items ++ json_text envelope.now) }
{
    put_head(out, envelope)?;
    put_middle(out, envelope)?;
    put_last_entry(out, envelope.message.payload.as_slice())
}

// The packet identifier of a message, 0 if there is none.
fn id_number(id: Option<PacketId>) -> u64
    ensures { result ≡ id_number id }
{
    match id {
        Some(id) => u64::from(id.get()),
        None => 0,
    }
}

/// Appends a field of a message.
#[tactic(auto, unfolding(crate::specs::Format::field_text))]
pub(crate) fn put_field(
    alloc: Global,
    out: &mut Vec<u8>,
    field: Field,
    layout: Layout,
    envelope: &Envelope<'_>,
) -> Result<(), AllocError>
    ensures { OnOk result
        (out.new.items ≡ out.old.items ++ field_text envelope.now layout field) }
{
    let message = envelope.message;
    let payload = message.payload.as_slice();
    match field {
        Field::Percent => out.extend_from_slice(b"%"),
        Field::Topic => {
            let topic = message.topic.as_str().as_bytes();
            put_padded(out, front(topic, layout.precision), layout, b' ')
        }
        Field::Payload => put_payload(out, payload, layout),
        Field::Hexadecimal(is_upper) => put_digits(alloc, out, payload, is_upper, layout),
        Field::Qos => put_decimal(out, u64::from(message.qos.number())),
        Field::Retain => put_decimal(out, u64::from(message.retain)),
        Field::Length => put_padded_number(out, payload.len() as u64, layout),
        Field::Id => put_padded_number(out, id_number(envelope.id), layout),
        Field::Time => put_time_field(alloc, out, &envelope.moment, layout),
        Field::Unix => put_unix(out, &envelope.moment),
        Field::Json => put_json(out, envelope),
        Field::Nothing => Ok(()),
    }
}
