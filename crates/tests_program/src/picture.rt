//! The picture of a schedule.

use mq_picture::write_picture;
use mq_schedule::read_schedule;
use std::test::Fail;

const SCHEDULE: &str =
    "world 65536 4\nopen\nto s 15\nto c 4\npub c 2 t 78\nto s 7\ndrop s\nsettle\n";

#[test]
fn draws_a_cut_message(rt: HostRuntime) -> Result<(), Fail> {
    let alloc = rt.alloc();
    let schedule = read_schedule(alloc, SCHEDULE)?;
    let mut image: Vec<u8> = Vec::new(alloc);
    write_picture(alloc, &schedule, &mut image)?;
    let text = str::from_utf8(image.as_slice())?;
    assert!(rt; text.contains(">PUBLISH 1: 7 of 8 bytes</text>"));
    assert!(rt; text.contains(">PUBLISH 1 DUP</text>"));
    assert!(rt; text.contains(">delivered: t 78</text>"));
    assert!(rt; !text.contains("script"));
    Ok(())
}
