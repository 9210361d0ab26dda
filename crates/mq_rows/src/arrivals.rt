//! Bytes that arrive at an end of either side.

use crate::brief::add_progress;
use crate::fields::bytes_of;
use crate::messages::view_of;
use crate::words::Words;
use crate::wrong::Wrong;
use mq_decode::PacketView;
use mq_end::{ClientEnd, Progress, ServerEnd};
use std::alloc::Global;

/// An end of either side.
pub(crate) trait End {
    /// Receives bytes at this time.
    fn on_bytes(&mut self, moment: u64, bytes: &[u8]) -> Progress;

    /// Receives a packet at this time that is borrowed from its bytes.
    fn on_borrowed(&mut self, moment: u64, packet: &PacketView<'_>) -> Progress;
}

impl End for ClientEnd {
    fn on_bytes(&mut self, moment: u64, bytes: &[u8]) -> Progress {
        self.receive(moment, bytes)
    }

    fn on_borrowed(&mut self, moment: u64, packet: &PacketView<'_>) -> Progress {
        self.on_view(moment, packet)
    }
}

impl End for ServerEnd {
    fn on_bytes(&mut self, moment: u64, bytes: &[u8]) -> Progress {
        self.receive(moment, bytes)
    }

    fn on_borrowed(&mut self, moment: u64, packet: &PacketView<'_>) -> Progress {
        self.on_view(moment, packet)
    }
}

/// `view BYTES`: receives a packet that is borrowed from these bytes.
pub(crate) fn take_view<E: End>(
    alloc: Global,
    end: &mut E,
    moment: u64,
    words: &mut Words<'_>,
    told: &mut String,
) -> Result<(), Wrong> {
    let bytes = bytes_of(alloc, words)?;
    let packet = view_of(bytes.as_slice())?;
    add_progress(told, &end.on_borrowed(moment, &packet))
}

/// `receive BYTES`: receives these bytes.
pub(crate) fn receive<E: End>(
    alloc: Global,
    end: &mut E,
    moment: u64,
    words: &mut Words<'_>,
    told: &mut String,
) -> Result<(), Wrong> {
    let bytes = bytes_of(alloc, words)?;
    add_progress(told, &end.on_bytes(moment, bytes.as_slice()))
}
