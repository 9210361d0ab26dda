//! Streams over sockets that wait for a source of messages too.

ghost use Rattle.std.specs.Prelude.{None, IfSome};
ghost use Rattle.mq_pubsub_programs.specs.Prelude.{Arrives, HasNoBytes};

use crate::watch::Watch;
use libc::net::POLLIN;
use libc::types::pollfd;
use mq_stream::{OnInterrupt, ReadOutcome, Stream, StreamError, write_bytes};
use std::alloc::{AllocError, Global};
use std::io::{ErrorKind, Read, Write};
use std::os::fd::AsRawFd;

/// The bytes of a buffer.
const ROOM: usize = 16_384;

/// Returns whether the first of two descriptors has input, and whether neither had any in this many
/// milliseconds. A descriptor -1 has no input.
pub(crate) fn has_input(first: i32, second: i32, milliseconds: i32) -> (bool, bool) {
    let mut list = [
        pollfd {
            fd: first,
            events: POLLIN,
            revents: 0,
        },
        pollfd {
            fd: second,
            events: POLLIN,
            revents: 0,
        },
    ];
    let count = libc::net::poll(&mut list, milliseconds);
    (count > 0 && list[0].revents != 0, count == 0)
}

/// A stream over a socket, with a buffer. A read waits for the socket and as a watch says.
/// The stream has failed if nothing arrives for too long.
#[derive(Drop)]
pub(crate) struct PolledStream<'a, T: Read + Write + AsRawFd> {
    socket: T,
    watch: &'a Watch,
    bytes: Vec<u8>,
    start: usize,
    end: usize,
    // The milliseconds without a byte, and after how many of them the stream has failed.
    quiet: u64,
    patience: Option<u64>,
}

impl<'a, T: Read + Write + AsRawFd> PolledStream<'a, T> {
    /// A stream over a socket.
    pub(crate) fn new(
        alloc: Global,
        socket: T,
        watch: &'a Watch,
        patience: Option<u64>,
    ) -> Result<PolledStream<'a, T>, AllocError>
    where
        T: Drop,
    {
        let mut bytes = Vec::new(alloc);
        bytes.resize(ROOM, 0)?;
        Ok(PolledStream {
            socket,
            watch,
            bytes,
            start: 0,
            end: 0,
            quiet: 0,
            patience,
        })
    }

    // Waits for input. Returns the outcome of a read if there is none.
    fn await_input(&mut self) -> Option<ReadOutcome>
        ensures { IfSome result HasNoBytes }
    {
        let wait = self.watch.wait();
        let (has_input, is_over) = has_input(
            self.socket.as_raw_fd(),
            self.watch.descriptor(),
            wait,
        );
        if has_input {
            self.quiet = 0;
            return None;
        }
        if is_over {
            self.quiet = self.quiet.saturating_add(u64::try_from(wait).unwrap_or(0));
        }
        match self.patience {
            Some(patience) if self.quiet >= patience => Some(ReadOutcome::Failed),
            _ => Some(ReadOutcome::Nothing),
        }
    }

    // Reads bytes of the socket into the buffer. Returns the outcome of a read if there is none.
    fn refill(&mut self) -> Option<ReadOutcome>
        ensures { IfSome result HasNoBytes }
    {
        match self.socket.read(self.bytes.as_mut_slice()) {
            Ok(0) => Some(ReadOutcome::End),
            Ok(count) => {
                self.start = 0;
                self.end = count;
                None
            }
            Err(error) => Some(match error.kind() {
                ErrorKind::Interrupted | ErrorKind::WouldBlock | ErrorKind::TimedOut => {
                    ReadOutcome::Nothing
                }
                _ => ReadOutcome::Failed,
            }),
        }
    }

    // Hands bytes of the buffer out.
    fn hand(&mut self, buffer: &mut [u8]) -> ReadOutcome
        ensures { Arrives None None buffer.new result }
    {
        let count = buffer.len().min(self.end.saturating_sub(self.start));
        let Some(bytes) = self.bytes.get(self.start..self.start.saturating_add(count)) else {
            return ReadOutcome::Failed;
        };
        if count == 0 || bytes.len() != count {
            return ReadOutcome::Nothing;
        }
        buffer[..count].copy_from_slice(bytes);
        self.start = self.start.saturating_add(count);
        ReadOutcome::Bytes(count)
    }
}

impl<T: Read + Write + AsRawFd> Stream for PolledStream<'_, T> {
    fn read(&mut self, buffer: &mut [u8]) -> ReadOutcome {
        if self.start >= self.end {
            if let Some(outcome) = self.await_input() {
                return outcome;
            }
            if let Some(outcome) = self.refill() {
                return outcome;
            }
        }
        self.hand(buffer)
    }

    fn write_all(&mut self, bytes: &[u8]) -> Result<(), StreamError> {
        write_bytes(&mut self.socket, bytes, &mut OnInterrupt)
    }
}
