//! The arguments of the commands that open sockets.

use mq_cli::{Collect, Command, Publish, Serve, Source, job};
use mq_topic::Qos;
use std::alloc::Global;
use std::process::Abort;
use std::test::Fail;

static SERVED: [(&[&str], Serve); 3] = [
    (
        &["--port=1883", "--connections=3", "--workers=1"],
        Serve {
            port: 1883,
            connections: 3,
            workers: 1,
        },
    ),
    (
        &["--workers=64", "--connections=4294967295", "--port=65535"],
        Serve {
            port: 65_535,
            connections: 4_294_967_295,
            workers: 64,
        },
    ),
    (
        &["--port=0", "--connections=0", "--workers=+2"],
        Serve {
            port: 0,
            connections: 0,
            workers: 2,
        },
    ),
];

// Whether the words of `serve` are read so.
fn serves(alloc: Global, words: &[&str], wanted: &Serve) -> bool {
    match job(alloc, words) {
        Ok(Command::Serve(serve)) => serve == *wanted,
        _ => false,
    }
}

fn reads_words_for_a_broker(rt: &impl Abort, alloc: Global) -> Result<(), Fail> {
    for (behind, wanted) in &SERVED {
        let mut words = vec![in alloc; "mqtt", "serve"]?;
        words.extend_from_slice(behind)?;
        assert!(rt; serves(alloc, words.as_slice(), wanted), "{behind:?}");
    }
    Ok(())
}

// What `publish` is given behind its port: the words, the client, the topic, the quality of
// service, whether it is retained, the session's file, and the texts.
type Published<'a> = (
    &'a [&'a str],
    &'a str,
    &'a str,
    Qos,
    bool,
    Option<&'a str>,
    &'a [&'a str],
);

static PUBLISHED: [Published<'static>; 6] = [
    (
        &["--id", "p", "--topic", "a/b", "--qos", "2", "hi", "yo"],
        "p",
        "a/b",
        Qos::Q2,
        false,
        None,
        &["hi", "yo"],
    ),
    (
        &["hi", "--retain", "--qos", "0", "--topic", "p", "--id", "t"],
        "t",
        "p",
        Qos::Q0,
        true,
        None,
        &["hi"],
    ),
    (
        &["--id=p", "one", "--topic=t", "two", "--qos=1", "three"],
        "p",
        "t",
        Qos::Q1,
        false,
        None,
        &["one", "two", "three"],
    ),
    // No text, if a file stores the session. Invalid topic names, and texts that are empty or look
    // like options, are accepted as they are.
    (
        &["--id=p", "--topic=t", "--qos=1", "--session", "s.bin"],
        "p",
        "t",
        Qos::Q1,
        false,
        Some("s.bin"),
        &[],
    ),
    (
        &["--id=", "--topic=a/#", "--qos=1", "--session=", "%", ""],
        "",
        "a/#",
        Qos::Q1,
        false,
        Some(""),
        &["%", ""],
    ),
    (
        &["--id=-", "--topic=", "--qos=1", "--", "--retain", "-"],
        "-",
        "",
        Qos::Q1,
        false,
        None,
        &["--retain", "-"],
    ),
];

// Whether this was read of the words, behind the port.
fn is_read(publish: &Publish<'_>, wanted: &Published<'_>) -> bool {
    let is_id = publish.id == wanted.1;
    let is_topic = publish.topic == wanted.2;
    let is_session = publish.session == wanted.5;
    let are_texts = publish.texts.as_slice() == wanted.6;
    let are_numbers = publish.port == 1 && publish.qos == wanted.3 && publish.retain == wanted.4;
    is_id & is_topic & is_session & are_texts & are_numbers
}

// Whether the words of `publish` are read so.
fn publishes(alloc: Global, words: &[&str], wanted: &Published<'_>) -> bool {
    match job(alloc, words) {
        Ok(Command::Publish(publish)) => is_read(&publish, wanted),
        _ => false,
    }
}

fn reads_words_for_a_publisher(rt: &impl Abort, alloc: Global) -> Result<(), Fail> {
    for wanted in &PUBLISHED {
        let mut words = vec![in alloc; "mqtt", "publish", "--port=1"]?;
        words.extend_from_slice(wanted.0)?;
        assert!(rt;
            publishes(alloc, words.as_slice(), wanted),
            "{:?}",
            wanted.0
        );
    }
    Ok(())
}

static COLLECTED: [(&[&str], Collect<'static>); 2] = [
    (
        &[
            "--port=1883",
            "--id=c",
            "--filter=a/#",
            "--qos=2",
            "--count=2",
        ],
        Collect {
            port: 1883,
            id: "c",
            filter: "a/#",
            qos: Qos::Q2,
            count: 2,
            clean: false,
        },
    ),
    (
        &[
            "--clean",
            "--count=4294967295",
            "--qos=0",
            "--filter=c",
            "--id=a/#",
            "--port=0",
        ],
        Collect {
            port: 0,
            id: "a/#",
            filter: "c",
            qos: Qos::Q0,
            count: 4_294_967_295,
            clean: true,
        },
    ),
];

// Whether the words of `collect` are read so.
fn collects(alloc: Global, words: &[&str], wanted: &Collect<'_>) -> bool {
    match job(alloc, words) {
        Ok(Command::Collect(collect)) => collect == *wanted,
        _ => false,
    }
}

fn reads_words_for_a_collector(rt: &impl Abort, alloc: Global) -> Result<(), Fail> {
    for (behind, wanted) in &COLLECTED {
        let mut words = vec![in alloc; "mqtt", "collect"]?;
        words.extend_from_slice(behind)?;
        assert!(rt; collects(alloc, words.as_slice(), wanted), "{behind:?}");
    }
    Ok(())
}

// Whether the words of `loopback` are read so.
fn loops(alloc: Global, word: &str, wanted: Source<'_>) -> bool {
    match job(alloc, &["mqtt", "loopback", word]) {
        Ok(Command::Loopback(source)) => source == wanted,
        _ => false,
    }
}

pub(super) fn reads_words(rt: &impl Abort, alloc: Global) -> Result<(), Fail> {
    reads_words_for_a_broker(rt, alloc)?;
    reads_words_for_a_publisher(rt, alloc)?;
    reads_words_for_a_collector(rt, alloc)?;
    assert!(rt; loops(alloc, "clients.txt", Source::File("clients.txt")));
    assert!(rt; loops(alloc, "-", Source::Standard));
    Ok(())
}
