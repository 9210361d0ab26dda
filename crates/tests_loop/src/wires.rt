//! Sockets that a test scripts.

ghost use Rattle.std.specs.Prelude.{◌≤◌, length};
ghost use Rattle.std.specs.Io.{ReadsAtMost, WritesAtMost};

use std::alloc::{AllocError, Global};
use std::cell::RefCell;
use std::io;
use std::io::{ErrorKind, Read, Write};

/// The other end of a socket.
#[derive(Drop)]
pub(crate) struct Pipe {
    /// The bytes that the socket gives.
    pub(crate) input: Vec<u8>,
    /// The number of those that it has given.
    pub(crate) given: usize,
    /// The socket ends after them.
    pub(crate) is_ended: bool,
    /// The bytes that it took.
    pub(crate) output: Vec<u8>,
    /// The total number of bytes that it takes before it fails.
    pub(crate) most: usize,
    /// The maximum of bytes that one read gives, and that one write takes.
    pub(crate) piece: usize,
    /// Each second call returns this instead.
    pub(crate) hitch: Option<ErrorKind>,
    /// The number of calls.
    pub(crate) calls: u32,
    /// The socket takes no bytes now.
    pub(crate) is_full: bool,
}

impl Pipe {
    /// A socket that gives these bytes and takes all.
    pub(crate) fn new(alloc: Global, input: Vec<u8>) -> Pipe {
        Pipe {
            input,
            given: 0,
            is_ended: false,
            output: Vec::new(alloc),
            most: usize::MAX,
            piece: usize::MAX,
            hitch: None,
            calls: 0,
            is_full: false,
        }
    }

    // The error that this call returns instead, if any.
    fn hitch(&mut self) -> Option<ErrorKind> {
        self.calls = self.calls.wrapping_add(1);
        if self.calls % 2 == 1 {
            self.hitch
        } else {
            None
        }
    }

    fn give(&mut self, room: &mut [u8]) -> io::Result<usize>
        ensures { ReadsAtMost result room.new }
    {
        if let Some(kind) = self.hitch() {
            return Err(io::Error::from(kind));
        }
        let (_, rest) = self
            .input
            .as_slice()
            .split_at(self.given.min(self.input.len()));
        let count = rest.len().min(room.len()).min(self.piece);
        if count == 0 && !self.is_ended {
            return Err(io::Error::from(ErrorKind::WouldBlock));
        }
        room[..count].copy_from_slice(&rest[..count]);
        self.given = self.given.saturating_add(count);
        Ok(count)
    }

    fn take(&mut self, bytes: &[u8]) -> io::Result<usize>
        ensures { WritesAtMost result bytes.now }
    {
        if let Some(kind) = self.hitch() {
            return Err(io::Error::from(kind));
        }
        if self.is_full {
            return Err(io::Error::from(ErrorKind::WouldBlock));
        }
        let left = self.most.saturating_sub(self.output.len());
        if left == 0 {
            return Err(io::Error::from(ErrorKind::ConnectionReset));
        }
        let count = bytes.len().min(self.piece).min(left);
        self.output.extend_from_slice(&bytes[..count])?;
        Ok(count)
    }
}

/// A socket with this number.
#[derive(Clone, Copy)]
pub(crate) struct Wire<'a> {
    pub(crate) pipes: &'a RefCell<Vec<Pipe>>,
    pub(crate) number: usize,
}

impl Read for Wire<'_> {
    fn read(&mut self, room: &mut [u8]) -> io::Result<usize> {
        let Ok(mut pipes) = self.pipes.try_borrow_mut() else {
            return Err(io::Error::from(ErrorKind::Other));
        };
        match pipes.get_mut(self.number) {
            Some(pipe) => pipe.give(room),
            None => Err(io::Error::from(ErrorKind::Other)),
        }
    }
}

impl Write for Wire<'_> {
    fn write(&mut self, bytes: &[u8]) -> io::Result<usize> {
        let Ok(mut pipes) = self.pipes.try_borrow_mut() else {
            return Err(io::Error::from(ErrorKind::Other));
        };
        match pipes.get_mut(self.number) {
            Some(pipe) => pipe.take(bytes),
            None => Err(io::Error::from(ErrorKind::Other)),
        }
    }

    fn flush(&mut self) -> io::Result<()> {
        Ok(())
    }
}

/// A cell with these pipes.
pub(crate) fn cell_of(alloc: Global, list: [Pipe; 3]) -> Result<RefCell<Vec<Pipe>>, AllocError> {
    Ok(RefCell::new(Vec::from_array(alloc, list)?))
}
