//! A client over a socket: subscribes, prints the topics of messages, and disconnects.
#![tactic(auto)]

use mq_decode::Limits;
use mq_end::{ClientConfig, ClientEnd, Happening};
use mq_packet::{NonEmpty, Request};
use mq_stream::{Clock, Elapsed, SocketStream, Stream};
use mq_topic::{Qos, TopicFilter};
use mq_wire::Text;
use std::net::{Net, OpenStream, SocketAddr};
use std::process::ExitCode;
use std::time::{Duration, Instant};

/// Subscribes, and prints the topics of `wanted` messages. A read must end within a second.
fn listen<S: Stream, C: Clock>(
    rt: &impl Print,
    client: &mut ClientEnd,
    stream: &mut S,
    clock: &mut C,
    requests: &NonEmpty<Request>,
    wanted: u32,
) -> anyhow::Result<()> {
    let mut room = [0; 4096];
    let mut printed = 0;
    client.connect(clock.now(), false)?; // queues CONNECT
    for _ in 0..u64::MAX {
        client.tick(clock.now())?; // queues PINGREQ if it is due
        stream.write_all(client.take_all_output().as_slice())?;
        let Some(count) = stream.read(&mut room).count() else {
            client.dropped();
            anyhow::bail!("the broker closed the connection");
        };
        let progress = client.receive(clock.now(), &room[..count]);
        for happening in progress.happenings.as_slice() {
            if let Happening::Up { .. } = happening {
                client.subscribe(requests.clone()?)?;
            } else if let Happening::Handed(message) = happening {
                println!(rt; "{}", message.topic.as_str())?;
                printed = u32::saturating_add(printed, 1);
            }
        }
        if let Some(reason) = progress.closed {
            anyhow::bail!("closed {}", reason.code());
        }
        if printed >= wanted {
            client.disconnect()?; // queues DISCONNECT behind the acknowledgements
            stream.write_all(client.take_all_output().as_slice())?;
            return Ok(());
        }
    }
    Ok(())
}

/// Connects to a port of this machine, subscribes, and prints the topics of `wanted` messages.
fn run<R>(rt: &HostRuntime, host: &R, port: u16, filter: &str, wanted: u32) -> anyhow::Result<()>
where
    R: Net + std::time::Clock,
{
    let alloc = rt.alloc();
    let filter = TopicFilter::parse(alloc, filter)?;
    let qos = Qos::Q2;
    let requests = NonEmpty::from_vec(vec![in alloc; Request { filter, qos }]?);
    let address = SocketAddr::from(([127, 0, 0, 1], port));
    let socket = host.connect_timeout(address, Duration::from_secs(10))?;
    socket.set_read_timeout(Some(Duration::from_secs(1)))?; // so that `tick` is called in time
    let mut clock = Elapsed::since(host, Instant::now(host)?);
    let config = ClientConfig {
        id: Text::new(alloc, "example")?,
        keep_alive: 60, // seconds; 0 for none
        will: None,
        login: None,
        limits: Limits::new(1_048_576).unwrap(),
        capacity: 100, // packet identifiers in use, at least 1
        window: None, // unreleased QoS 2 messages, at least 1
    };
    let mut client = ClientEnd::new(alloc, config);
    let mut stream = SocketStream(socket);
    listen(rt, &mut client, &mut stream, &mut clock, &requests, wanted)
}

fn main(rt: HostRuntime) -> anyhow::Result<ExitCode> {
    let words: Vec<String> = std::env::args(&rt)?.collect(rt.alloc())?;
    let [_, port, filter, count] = words.as_slice() else {
        println!(&rt; "usage: example_client PORT FILTER COUNT")?;
        return Ok(ExitCode::from(2));
    };
    let (port, count) = (port.as_str().parse()?, count.as_str().parse()?);
    run(&rt, &rt, port, filter.as_str(), count)?;
    Ok(ExitCode::SUCCESS)
}
