//! Payloads to publish.

ghost use Rattle.std.specs.Prelude.{◌≡◌, true, IfOk};

use crate::polled::has_input;
use bytes::Bytes;
use mq_end::ByteQueue;
use mq_packet::Payload;
use mq_pubsub::RunError;
use std::alloc::Global;
use std::io::ErrorKind;

/// The bytes of a read of standard input.
const CHUNK: usize = 65_536;

/// The descriptor of standard input.
pub(crate) const INPUT: i32 = 0;

/// A payload of bytes.
pub(crate) fn payload_of(alloc: Global, bytes: &[u8]) -> Result<Payload, RunError>
    ensures { IfOk result (λ payload. payload ≡ bytes.now) }
{
    let bytes = Bytes::copy_from_slice(alloc, bytes)?;
    match Payload::new(bytes) {
        Some(payload) => Ok(payload),
        None => Err(RunError::TooLarge),
    }
}

/// The lines of standard input, as they arrive.
#[derive(Drop)]
pub(crate) struct InputLines {
    /// The bytes that were read and not taken.
    pub(crate) queue: ByteQueue,
    room: Vec<u8>,
    // The front of the queue that has no line end.
    searched: usize,
    /// A read found the end.
    pub(crate) is_ended: bool,
}

/// A line of standard input.
#[derive(Drop)]
pub(crate) enum InputLine {
    Line(Payload),
    Later,
    End,
}

impl InputLines {
    ghost use Rattle.mq_pubsub_programs.specs.Prelude.{EndsInput};

    /// The lines of standard input.
    pub(crate) fn new(alloc: Global) -> Result<InputLines, RunError> {
        let mut room = Vec::new(alloc);
        room.resize(CHUNK, 0)?;
        Ok(InputLines {
            queue: ByteQueue::new(alloc),
            room,
            searched: 0,
            is_ended: false,
        })
    }

    // The place of the first line end, if there is one.
    fn line_end(&mut self) -> Option<usize> {
        let bytes = self.queue.as_slice();
        let rest = bytes.get(self.searched..)?;
        match rest.iter().position(|byte| *byte == b'\n') {
            Some(place) => Some(self.searched.saturating_add(place)),
            None => {
                self.searched = bytes.len();
                None
            }
        }
    }

    // Takes this many bytes as a line, and one more as its end.
    fn take(&mut self, alloc: Global, count: usize) -> Result<InputLine, RunError>
        ensures { IfOk result (EndsInput self.new) }
    {
        let bytes = self.queue.as_slice();
        let payload = payload_of(alloc, &bytes[..count.min(bytes.len())])?;
        let taken = count.saturating_add(1).min(bytes.len());
        self.queue.take(taken);
        self.searched = 0;
        Ok(InputLine::Line(payload))
    }

    // Reads once, if there is input. Returns whether something was read or the input has ended.
    fn read(&mut self) -> Result<bool, RunError> {
        let (has_input, _) = has_input(INPUT, -1, 0);
        if !has_input {
            return Ok(false);
        }
        let count = libc::read(INPUT, self.room.as_mut_slice());
        match usize::try_from(count) {
            Ok(0) => {
                self.is_ended = true;
                Ok(true)
            }
            Ok(count) => {
                let room = self.room.as_slice();
                self.queue.append(&room[..count.min(room.len())])?;
                Ok(true)
            }
            Err(_) => Err(RunError::Input(ErrorKind::Other)),
        }
    }

    // Takes the remaining bytes, if there are any.
    #[tactic(auto, using(crate::proofs::Lines::is_empty))]
    fn take_rest(&mut self, alloc: Global) -> Result<InputLine, RunError>
        requires { self.old.is_ended ≡ true }
        ensures { IfOk result (EndsInput self.new) }
    {
        let left = self.queue.len();
        if left == 0 {
            return Ok(InputLine::End);
        }
        self.take(alloc, left)
    }

    /// The next line, if it is there.
    pub(crate) fn next(&mut self, alloc: Global) -> Result<InputLine, RunError>
        ensures { IfOk result (EndsInput self.new) }
    {
        for _ in 0..u64::MAX {
            if let Some(end) = self.line_end() {
                return self.take(alloc, end);
            }
            if self.is_ended {
                return self.take_rest(alloc);
            }
            if !self.read()? {
                return Ok(InputLine::Later);
            }
        }
        Ok(InputLine::Later)
    }
}
