//! The last lines of a replay.

ghost use Rattle.std.specs.Prelude.{◌≡◌, OnOk};
ghost use Rattle.mq_replay.specs.Prelude.{Appends, accepted_in, handed_in, near, held_count, last_lines, total_line};

use mq_schedule::SideWord;
use mq_topic::Qos;
use mq_world::{Account, Side, World};
use std::io;
use std::io::Write;

// The messages that a side accepted and delivered.
fn account(world: &World, side: Side) -> &Account
    ensures accepted { accepted_in result.now ≡ (near side world.now.wired).accepted }
    ensures handed { handed_in result.now ≡ (near side world.now.wired).handed }
{
    let trace = world.trace();
    match side {
        Side::Client => &trace.client,
        Side::Server => &trace.server,
    }
}

// The number of messages that the sender of a side stores, 0 without a session.
fn held(world: &World, side: Side, qos: Qos) -> usize
    ensures { result ≡ held_count qos side world.now.wired }
{
    match world.session(side) {
        Some(session) => session.sender.holds(qos),
        None => 0,
    }
}

// How many messages of a quality of service went from a side to the other.
fn write_total<W: Write>(
    output: &mut W,
    world: &World,
    from: Side,
    to: Side,
    qos: Qos,
) -> io::Result<()>
    ensures { OnOk result
        (Appends (W.contents output.old) (W.contents output.new) (total_line from to qos world.now.wired)) }
{
    let accepted = account(world, from).accepted(qos);
    let handed = account(world, to).handed(qos);
    let held = held(world, from, qos);
    let number = qos.number();
    let (from, to) = (SideWord(from), SideWord(to));
    writeln!(
        output,
        "{from}>{to} qos{number} accepted {accepted} handed {handed} held {held}"
    )
}

/// Writes how many messages went each way, at least once and exactly once (4.3).
pub(crate) fn write_totals<W: Write>(output: &mut W, world: &World) -> io::Result<()>
    ensures { OnOk result
        (Appends (W.contents output.old) (W.contents output.new) (last_lines world.now.wired)) }
{
    write_total(output, world, Side::Client, Side::Server, Qos::Q1)?;
    write_total(output, world, Side::Client, Side::Server, Qos::Q2)?;
    write_total(output, world, Side::Server, Side::Client, Qos::Q1)?;
    write_total(output, world, Side::Server, Side::Client, Qos::Q2)
}
