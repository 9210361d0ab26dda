//! Streams that print their packets.

use mq_decode::{Decoder, Limits};
use mq_packet::{Connect, Escaped, Packet, Publish};
use mq_stream::{ReadOutcome, Stream, StreamError};
use std::alloc::Global;

/// A stream that prints its packets to standard error, if that is wanted.
#[derive(Drop)]
pub(crate) struct TracedStream<'a, S: Stream, R> {
    inner: S,
    rt: &'a R,
    alloc: Global,
    is_on: bool,
    received: Decoder,
    sent: Decoder,
}

// Prints a CONNECT, without its password.
fn tell_connect<R: Eprint>(rt: &R, way: &str, connect: &Connect) {
    let id = Escaped(connect.client_id.as_str());
    let clean = u8::from(connect.clean_session);
    let keep = connect.keep_alive;
    let will = if connect.will.is_some() { " will" } else { "" };
    let user = if connect.login.is_some() { " user" } else { "" };
    let _ = eprintln!(rt; "{way} CONNECT id={id} clean={clean} keep={keep}{will}{user}");
}

// Prints a PUBLISH, without its payload.
fn tell_publish<R: Eprint>(rt: &R, way: &str, publish: &Publish) {
    let message = publish.message();
    let topic = Escaped(message.topic.as_str());
    let size = message.payload.as_slice().len();
    let (qos, retain) = (message.qos.number(), u8::from(message.retain));
    let (id, dup) = match publish.delivery() {
        Some(delivery) => (delivery.id.get(), u8::from(delivery.dup)),
        None => (0, 0),
    };
    let _ = eprintln!(rt;
        "{way} PUBLISH id={id} qos={qos} retain={retain} dup={dup} topic={topic} ({size} bytes)"
    );
}

// Prints a packet.
fn tell<R: Eprint>(rt: &R, way: &str, packet: &Packet) {
    match packet {
        Packet::Connect(connect) => tell_connect(rt, way, connect.as_connect()),
        Packet::Publish(publish) => tell_publish(rt, way, publish),
        packet => {
            let _ = eprintln!(rt; "{way} {packet}");
        }
    }
}

// Prints the packets that bytes complete.
fn trace<R: Eprint>(rt: &R, alloc: Global, way: &str, decoder: &mut Decoder, bytes: &[u8]) {
    let mut packets = Vec::new(alloc);
    let _ = decoder.feed(bytes, &mut packets);
    for packet in packets.as_slice() {
        tell(rt, way, packet);
    }
}

impl<'a, S: Stream, R: Eprint> TracedStream<'a, S, R> {
    /// A stream that prints its packets if `is_on`.
    pub(crate) fn new(
        rt: &'a R,
        alloc: Global,
        inner: S,
        limits: Limits,
        is_on: bool,
    ) -> TracedStream<'a, S, R> {
        TracedStream {
            inner,
            rt,
            alloc,
            is_on,
            received: Decoder::new(alloc, limits),
            sent: Decoder::new(alloc, limits),
        }
    }
}

impl<S: Stream, R: Eprint> Stream for TracedStream<'_, S, R> {
    ghost coming = { λ s. S.coming s.inner };

    ghost written = { λ s. S.written s.inner };

    ghost closed = { λ s. S.closed s.inner };

    fn read(&mut self, buffer: &mut [u8]) -> ReadOutcome {
        let outcome = self.inner.read(buffer);
        if let (true, ReadOutcome::Bytes(count)) = (self.is_on, outcome) {
            let bytes = &buffer[..count.min(buffer.len())];
            trace(self.rt, self.alloc, "received", &mut self.received, bytes);
        }
        outcome
    }

    fn write_all(&mut self, bytes: &[u8]) -> Result<(), StreamError> {
        if self.is_on {
            trace(self.rt, self.alloc, "sent", &mut self.sent, bytes);
        }
        self.inner.write_all(bytes)
    }
}
