//! A broker in memory with two clients. The connection of the publisher breaks in the middle of a
//! QoS 2 message, and the subscriber receives the message once.
#![tactic(auto)]

use bytes::Bytes;
use mq_decode::Limits;
use mq_end::{ClientConfig, ClientEnd, Happening};
use mq_hub::{Conn, Hub, HubConfig, HubEvent, WhenFull};
use mq_packet::{Message, NonEmpty, Payload, Request};
use mq_topic::{Qos, TopicFilter, TopicName};
use mq_wire::Text;
use std::alloc::Global;

/// A client with its connection to the broker.
#[derive(Drop)]
struct Device {
    end: ClientEnd,
    conn: Conn,
}

/// Creates a client that is not connected.
fn new_device(alloc: Global, id: &str, limits: Limits) -> anyhow::Result<Device> {
    let config = ClientConfig {
        id: Text::new(alloc, id)?,
        keep_alive: 60,
        will: None,
        login: None,
        limits,
        capacity: 100,
        window: None,
    };
    Ok(Device {
        end: ClientEnd::new(alloc, config),
        conn: Conn { worker: 0, nth: 0 },
    })
}

/// Opens the connection with this number, and queues CONNECT.
fn connect(device: &mut Device, hub: &mut Hub, nth: u32) -> anyhow::Result<()> {
    device.conn = Conn { worker: 0, nth };
    hub.step(&HubEvent::Opened(device.conn))?;
    device.end.connect(0, false)?;
    Ok(())
}

/// Sends the first `most` bytes of the pending output to the broker. Returns whether there are any.
fn send(device: &mut Device, hub: &mut Hub, most: usize) -> anyhow::Result<bool> {
    let mut output = device.end.take_all_output();
    if output.as_slice().len() > most {
        output.truncate(most);
    }
    let bytes = output.take_bytes()?;
    let sent = !bytes.is_empty();
    hub.step(&HubEvent::Bytes(device.conn, bytes))?;
    Ok(sent)
}

/// Receives the pending output of the broker. Returns whether there is any.
fn receive(rt: &impl Print, device: &mut Device, hub: &mut Hub) -> anyhow::Result<bool> {
    let reply = hub.step(&HubEvent::Collect(device.conn))?;
    let progress = device.end.receive(0, reply.output.as_slice());
    for happening in progress.happenings.as_slice() {
        match happening {
            Happening::Up { session_present } => {
                println!(rt; "connected, session present: {session_present}")?;
            }
            Happening::Handed(message) => {
                println!(rt; "delivered: {}", message.topic.as_str())?;
            }
            _ => {}
        }
    }
    Ok(!reply.output.is_empty())
}

/// Moves bytes between the clients and the broker until none are pending.
fn settle(rt: &impl Print, devices: &mut [Device; 2], hub: &mut Hub) -> anyhow::Result<()> {
    for _ in 0..100 {
        let mut busy = false;
        for device in devices.iter_mut() {
            busy |= send(device, hub, usize::MAX)?;
            busy |= receive(rt, device, hub)?;
        }
        if !busy {
            return Ok(());
        }
    }
    Ok(())
}

/// A broker for two clients that anybody may be.
fn new_hub(alloc: Global, limits: Limits) -> Hub {
    Hub::new(
        alloc,
        HubConfig {
            limits,
            capacity: 100,
            window: None,
            max_conns: 10,
            max_sessions: 10,
            users: None,
            hashed_users: None,
            when_full: WhenFull::ClosePublisher,
            connect_within: None,
            session_expiry: None,
            most_stored: None,
            most_waiting: None,
            most_matches: None,
        },
    )
}

fn run(rt: &HostRuntime) -> anyhow::Result<()> {
    let alloc = rt.alloc();
    let limits = Limits::new(65_536).unwrap();
    let mut hub = new_hub(alloc, limits);
    let mut devices = [
        new_device(alloc, "display", limits)?,
        new_device(alloc, "sensor", limits)?,
    ];
    connect(&mut devices[0], &mut hub, 0)?;
    connect(&mut devices[1], &mut hub, 1)?;
    settle(rt, &mut devices, &mut hub)?;

    let filter = TopicFilter::parse(alloc, "house/#")?;
    let requests = NonEmpty::from_vec(vec![in alloc;
        Request {
            filter,
            qos: Qos::Q2
        },
    ]?);
    devices[0].end.subscribe(requests)?;
    settle(rt, &mut devices, &mut hub)?;

    let message = Message {
        topic: TopicName::parse(alloc, "house/door")?,
        payload: Payload::new(Bytes::copy_from_slice(alloc, b"open")?).unwrap(),
        qos: Qos::Q2,
        retain: false,
    };
    devices[1].end.publish(message)?;
    send(&mut devices[1], &mut hub, 10)?;
    println!(rt; "the connection of the publisher breaks after 10 bytes")?;
    hub.step(&HubEvent::Ended(devices[1].conn))?;
    devices[1].end.dropped();
    connect(&mut devices[1], &mut hub, 2)?;
    settle(rt, &mut devices, &mut hub)
}

fn main(rt: HostRuntime) -> anyhow::Result<()> {
    run(&rt)
}
