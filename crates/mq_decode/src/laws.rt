//! Laws of the grammar.

ghost use Rattle.mq_decode.specs.Prelude.{FaultyFields, EachReads, OneReading, PendingIsShort, ReadsAgain, ReadsOn};

use mq_wire::{length_laws, number_laws, text_laws};

/// No list of bytes has two readings: the packets, the rest and how it ends are determined.
pub fn one_reading()
    ensures { OneReading }
{
    number_laws();
    text_laws();
    length_laws();
}

/// Every list of bytes has a reading: packets, a rest and how it ends.
pub fn each_reads()
    ensures { EachReads }
{
    number_laws();
    text_laws();
    length_laws();
}

/// An incomplete packet is at most five bytes and the bound on the remaining length.
pub fn pending_is_short()
    ensures { PendingIsShort }
{
    number_laws();
    text_laws();
    length_laws();
}

/// An encoded packet is read. If one is read at the front, no other one is, nothing is pending, and
/// there is no fault.
pub fn reads_again()
    ensures { ReadsAgain }
{
    number_laws();
    text_laws();
    length_laws();
}

/// A packet that `Decoder::next_packet` takes, followed by a reading of the rest of the piece, is a
/// reading of the held bytes and the piece.
pub fn reads_on()
    ensures { ReadsOn }
{}

/// The fault of a field is that of the first invalid field: the fields before it are valid, in the
/// order of the packet's type (chapter 3), and no field that may come next is valid there. Its kind
/// is `PastEnd` if the field extends past the packet's end, `NotUtf8` or `Nul` if its text is
/// invalid, and otherwise the kind of the field.
pub fn faulty_fields()
    ensures { FaultyFields }
{
    number_laws();
    text_laws();
    length_laws();
}
