//! Replays over a writer that fails.

use mq_replay::replay;
use mq_schedule::{Schedule, read_schedule};
use std::alloc::Global;
use std::io;
use std::io::Write;
use std::test::Fail;

// A writer that takes a number of bytes and then fails.
#[derive(Drop)]
struct Room(usize);

impl Write for Room {
    fn write(&mut self, buf: &[u8]) -> io::Result<usize> {
        if self.0 == 0 {
            return Err(io::Error::from(io::ErrorKind::BrokenPipe));
        }
        let n = self.0.min(buf.len());
        self.0 -= n;
        Ok(n)
    }

    fn flush(&mut self) -> io::Result<()> {
        Ok(())
    }
}

fn fits(alloc: Global, schedule: &Schedule, room: usize) -> bool {
    replay(alloc, schedule, &mut Room(room)).is_ok()
}

// A schedule, and how many bytes it prints.
const SCHEDULE: &str = "world 65536 4\nopen\nto s 15\nto c 4\nleave\nto s 2\n";

const PRINTED: usize = 242;

#[test]
fn tells_of_failed_writes(rt: HostRuntime) -> Result<(), Fail> {
    let alloc = rt.alloc();
    let schedule = read_schedule(alloc, SCHEDULE)?;
    for room in 0..PRINTED {
        assert!(rt; !fits(alloc, &schedule, room), "room for {room}");
    }
    assert!(rt; fits(alloc, &schedule, PRINTED));
    Ok(())
}
