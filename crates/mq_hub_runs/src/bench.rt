//! A broker in memory, which consumes and produces the bytes of its clients, timed and printed.

use crate::clients::{self, BATCH};
use anyhow::{Context, ensure};
use mq_decode::Limits;
use mq_hub::{Conn, Hub, HubConfig, HubEvent, WhenFull};
use mq_topic::Qos;
use std::alloc::Global;
use std::rt::Clock;
use std::time::Instant;

/// The number of publishers, and of subscribers to all their messages.
#[derive(Clone, Copy, Debug)]
struct Flow {
    publishers: u16,
    subscribers: u16,
}

/// The flows that are measured.
const FLOWS: [Flow; 3] = [
    Flow {
        publishers: 8,
        subscribers: 1,
    },
    Flow {
        publishers: 1,
        subscribers: 32,
    },
    Flow {
        publishers: 4,
        subscribers: 0,
    },
];

/// The number of bytes of a message.
const PAYLOAD: usize = 16;

/// The number of other sessions, with ten subscriptions each.
const BESIDE: [u32; 2] = [10, 100_000];

/// How often each publisher sends a batch of messages.
const TURNS: u16 = 400;

const ROUNDS: usize = 3;

/// The connection of the other sessions, one after another.
const OTHERS: Conn = Conn { worker: 0, nth: 0 };

/// The connection of a publisher.
fn publisher(number: u16) -> Conn {
    Conn {
        worker: 1,
        nth: u32::from(number),
    }
}

/// The connection of a subscriber.
fn subscriber(number: u16) -> Conn {
    Conn {
        worker: 2,
        nth: u32::from(number),
    }
}

/// A broker without users and with many places.
fn broker(alloc: Global) -> anyhow::Result<Hub> {
    let config = HubConfig {
        limits: Limits::new(1_048_576).context("no limits")?,
        capacity: u16::MAX,
        window: None,
        max_conns: 1_000_000,
        max_sessions: 1_000_000,
        users: None,
        hashed_users: None,
        when_full: WhenFull::ClosePublisher,
        connect_within: None,
        session_expiry: None,
        most_stored: None,
        most_waiting: None,
        most_matches: None,
    };
    Ok(Hub::new(alloc, config))
}

/// Makes an event happen, after which its connection must be open.
fn step(hub: &mut Hub, event: &HubEvent) -> anyhow::Result<()> {
    ensure!(hub.step(event)?.alive, "a connection was closed");
    Ok(())
}

/// Ends a connection.
fn close(hub: &mut Hub, conn: Conn) -> anyhow::Result<()> {
    hub.step(&HubEvent::Ended(conn))?;
    Ok(())
}

fn take(hub: &mut Hub, conn: Conn) -> anyhow::Result<usize> {
    let reply = hub.step(&HubEvent::Collect(conn))?;
    ensure!(reply.alive, "a connection was closed");
    Ok(reply.output.len())
}

fn add_others(alloc: Global, hub: &mut Hub, count: u32) -> anyhow::Result<()> {
    for client in 0..count {
        step(hub, &HubEvent::Opened(OTHERS))?;
        step(hub, &clients::subscribes_to_ten(alloc, OTHERS, client)?)?;
        close(hub, OTHERS)?;
    }
    Ok(())
}

/// Publishers come.
fn add_publishers(alloc: Global, hub: &mut Hub, flow: Flow) -> anyhow::Result<()> {
    for number in 0..flow.publishers {
        let conn = publisher(number);
        let name = format!(in alloc; "publisher-{number}")?;
        step(hub, &HubEvent::Opened(conn))?;
        step(hub, &clients::comes(alloc, conn, name.as_str(), true)?)?;
    }
    Ok(())
}

/// Subscribers come, and subscribe.
fn add_subscribers(alloc: Global, hub: &mut Hub, flow: Flow, qos: Qos) -> anyhow::Result<()> {
    for number in 0..flow.subscribers {
        let conn = subscriber(number);
        let name = format!(in alloc; "subscriber-{number}")?;
        step(hub, &HubEvent::Opened(conn))?;
        let event = clients::subscribes(alloc, conn, name.as_str(), "greenhouse/#", qos)?;
        step(hub, &event)?;
        take(hub, conn)?;
    }
    Ok(())
}

/// All clients leave, and their sessions end.
fn end(hub: &mut Hub, flow: Flow) -> anyhow::Result<()> {
    for number in 0..flow.publishers {
        close(hub, publisher(number))?;
    }
    for number in 0..flow.subscribers {
        close(hub, subscriber(number))?;
    }
    Ok(())
}

/// A benchmark.
#[derive(Clone, Copy, Debug)]
struct Work {
    flow: Flow,
    qos: Qos,
}

impl Work {
    /// How many messages a subscriber gets in a turn.
    fn received(self) -> u16 {
        self.flow.publishers.saturating_mul(BATCH)
    }

    fn published(self, alloc: Global) -> anyhow::Result<Vec<HubEvent>> {
        let mut published = Vec::new(alloc);
        for number in 0..self.flow.publishers {
            let event = clients::publishes(alloc, publisher(number), self.qos, PAYLOAD)?;
            published.push(event)?;
        }
        Ok(published)
    }

    fn acknowledged(self, alloc: Global, turn: u16) -> anyhow::Result<Vec<HubEvent>> {
        let mut acknowledged = Vec::new(alloc);
        if self.qos == Qos::Q0 {
            return Ok(acknowledged);
        }
        let before = u32::from(turn).saturating_mul(u32::from(self.received()));
        let last = u16::try_from(before % u32::from(u16::MAX))?;
        for number in 0..self.flow.subscribers {
            let conn = subscriber(number);
            let event = clients::acknowledges(alloc, conn, self.qos, last, self.received())?;
            acknowledged.push(event)?;
        }
        Ok(acknowledged)
    }
}

fn collect(hub: &mut Hub, flow: Flow) -> anyhow::Result<()> {
    for number in 0..flow.publishers {
        take(hub, publisher(number))?;
    }
    for number in 0..flow.subscribers {
        ensure!(take(hub, subscriber(number))? > 0, "nothing came");
    }
    Ok(())
}

/// The bytes of a turn come, and go.
fn play(
    hub: &mut Hub,
    flow: Flow,
    published: &[HubEvent],
    acknowledged: &[HubEvent],
) -> anyhow::Result<()> {
    for event in published {
        step(hub, event)?;
    }
    collect(hub, flow)?;
    for event in acknowledged {
        step(hub, event)?;
    }
    Ok(())
}

/// How many nanoseconds some turns take, from the one of this number on.
fn time_turns(
    rt: &impl Clock,
    alloc: Global,
    hub: &mut Hub,
    work: Work,
    first: u16,
) -> anyhow::Result<u64> {
    let published = work.published(alloc)?;
    let mut acknowledged = Vec::new(alloc);
    for number in 0..TURNS {
        acknowledged.push(work.acknowledged(alloc, first.saturating_add(number))?)?;
    }
    let start = Instant::now(rt)?;
    for answers in &acknowledged {
        play(hub, work.flow, published.as_slice(), answers.as_slice())?;
    }
    let time = start.elapsed(rt)?;
    Ok(u64::try_from(time.as_nanos()).unwrap_or(u64::MAX))
}

fn measure_work(rt: &impl Clock, alloc: Global, hub: &mut Hub, work: Work) -> anyhow::Result<u64> {
    add_publishers(alloc, hub, work.flow)?;
    add_subscribers(alloc, hub, work.flow, work.qos)?;
    let mut times = [0u64; ROUNDS];
    let mut played = 0u16;
    for time in &mut times {
        *time = time_turns(rt, alloc, hub, work, played)?;
        played = played.saturating_add(TURNS);
    }
    end(hub, work.flow)?;
    times.sort_unstable();
    let messages = u64::from(TURNS) * u64::from(work.received());
    Ok(messages.saturating_mul(1_000_000_000) / times[ROUNDS / 2].max(1))
}

/// Measures each flow with messages of this quality of service.
fn measure_flows(
    rt: &(impl Print + Clock),
    alloc: Global,
    hub: &mut Hub,
    beside: u32,
    qos: Qos,
) -> anyhow::Result<()> {
    for flow in FLOWS {
        let rate = measure_work(rt, alloc, hub, Work { flow, qos })?;
        let Flow {
            publishers,
            subscribers,
        } = flow;
        println!(rt;
            "hub: {beside} other sessions, {publishers} to {subscribers}, {qos:?}: {rate} messages/s"
        )?;
    }
    Ok(())
}

fn measure_beside(
    rt: &(impl Print + Clock),
    alloc: Global,
    hub: &mut Hub,
    beside: u32,
) -> anyhow::Result<()> {
    add_others(alloc, hub, beside)?;
    for qos in [Qos::Q0, Qos::Q1, Qos::Q2] {
        measure_flows(rt, alloc, hub, beside, qos)?;
    }
    Ok(())
}

// Apart, so that only this function drops a broker.
fn measure_anew(rt: &(impl Print + Clock), alloc: Global, beside: u32) -> anyhow::Result<()> {
    let mut hub = broker(alloc)?;
    measure_beside(rt, alloc, &mut hub, beside)
}

/// Measures a broker, and prints the number of messages that it takes in a second.
pub(crate) fn measure(rt: &(impl Print + Clock), alloc: Global) -> anyhow::Result<()> {
    for beside in BESIDE {
        measure_anew(rt, alloc, beside)?;
    }
    Ok(())
}
