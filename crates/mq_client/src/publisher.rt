//! The program `publish`.

ghost use Rattle.std.specs.Prelude.{◌≡◌, [], IfErr, IfOk, OnOk};
ghost use Rattle.mq_client.specs.Prelude.{Prints, closes_of, AskedAll, AskedMore, IsPublishDone, IsResumeDone, Published, PublishHalts, asks_of, publishes, text_message};

use crate::error::ClientError;
use crate::lines::write_halt;
use crate::peer::Peer;
use crate::saver::SessionSaver;
use crate::stop::Stop;
use bytes::Bytes;
use mq_end::PublishRefusal;
use mq_packet::{Message, Payload};
use mq_stream::{Clock, Stream};
use mq_topic::{Qos, TopicName};
use std::alloc::Global;
use std::io;
use std::io::Write;

/// Texts to publish.
#[derive(Clone, Copy, Debug)]
pub struct Publications<'a> {
    /// Their topic.
    pub topic: &'a TopicName,
    /// Their quality of service.
    pub qos: Qos,
    /// RETAIN: the server keeps the last text for later subscribers (3.3.1.3).
    pub retain: bool,
    /// The texts.
    pub texts: &'a [&'a str],
}

// The message of a text.
fn message_of(alloc: Global, texts: &Publications<'_>, text: &str) -> Result<Message, ClientError>
    ensures ok { IfOk result (λ m. m ≡ text_message texts.now text.now) }
    ensures goes_on { closes_of result ≡ [] }
{
    let bytes = Bytes::copy_from_slice(alloc, text.as_bytes())?;
    let Some(payload) = Payload::new(bytes) else {
        return Err(ClientError::Refused(PublishRefusal::TooLarge));
    };
    Ok(Message {
        topic: texts.topic.clone()?,
        payload,
        qos: texts.qos,
        retain: texts.retain,
    })
}

// Publishes the texts from `next` on, until one has to wait.
fn publish_more<S: Stream, C: Clock, K: SessionSaver>(
    alloc: Global,
    peer: &mut Peer<S, C, K>,
    texts: &Publications<'_>,
    next: &mut usize,
) -> Result<(), ClientError>
    ensures went { AskedMore peer.old peer.new (asks_of texts.now) next.old next.new }
    ensures goes_on { closes_of result ≡ [] }
{
    while *next < texts.texts.len() && peer.is_up() {
        let message = message_of(alloc, texts, texts.texts[*next])?;
        if !peer.publish(message)? {
            return Ok(());
        }
        *next += 1;
    }
    Ok(())
}

// Publishes all texts and waits until they are acknowledged.
fn publish_acknowledged<S: Stream, C: Clock, K: SessionSaver>(
    alloc: Global,
    peer: &mut Peer<S, C, K>,
    texts: &Publications<'_>,
) -> Result<(), ClientError>
    ensures ok { OnOk result (AskedAll peer.old peer.new (asks_of texts.now)) }
    ensures err { IfErr result (PublishHalts peer.old peer.new (asks_of texts.now)) }
{
    let mut next = 0;
    for _ in 0..u64::MAX {
        peer.listen()?;
        publish_more(alloc, peer, texts, &mut next)?;
        peer.write()?;
        if next == texts.texts.len() && peer.is_up() && peer.is_idle() {
            return Ok(());
        }
    }
    Err(ClientError::Lost)
}

/// Connects, publishes the texts in order, waits until all are acknowledged, and leaves. `clean` is
/// the clean session flag.
pub fn publish_all<S: Stream, C: Clock, K: SessionSaver>(
    alloc: Global,
    peer: &mut Peer<S, C, K>,
    texts: &Publications<'_>,
    clean: bool,
) -> Result<(), ClientError>
    ensures ok { OnOk result (Published peer.old peer.new clean texts.now) }
    ensures err { IfErr result (PublishHalts peer.old peer.new (publishes clean texts.now)) }
{
    peer.open(clean)?;
    publish_acknowledged(alloc, peer, texts)?;
    peer.leave()
}

/// Does the same, and prints the number of texts or why it stopped, which `stop` gets too. Returns
/// the status of the program.
pub fn publish<S: Stream, C: Clock, K: SessionSaver, W: Write>(
    alloc: Global,
    peer: &mut Peer<S, C, K>,
    texts: &Publications<'_>,
    clean: bool,
    stop: &mut Option<Stop>,
    output: &mut W,
) -> io::Result<u8>
    ensures { IfOk result (λ status. Prints (W.contents output.old) (W.contents output.new)
        (IsPublishDone peer.old peer.new clean texts.now status)) }
{
    match publish_all(alloc, peer, texts, clean) {
        Ok(()) => {
            writeln!(output, "published {}", texts.texts.len())?;
            Ok(0)
        }
        Err(halt) => {
            *stop = Some(Stop::Halted(peer.publish_halt(halt)));
            write_halt(output, halt)
        }
    }
}

/// Continues with a session: prints the number of its messages that are sent again (4.4), and
/// publishes texts without a clean session. Returns the status of the program.
pub fn resume<S: Stream, C: Clock, K: SessionSaver, W: Write>(
    alloc: Global,
    peer: &mut Peer<S, C, K>,
    texts: &Publications<'_>,
    stop: &mut Option<Stop>,
    output: &mut W,
) -> io::Result<u8>
    ensures { IfOk result (λ status. Prints (W.contents output.old) (W.contents output.new)
        (IsResumeDone peer.old peer.new texts.now status)) }
{
    let resumed = peer.resumed();
    writeln!(output, "resumed {resumed}")?;
    output.flush()?;
    publish(alloc, peer, texts, false, stop, output)
}
