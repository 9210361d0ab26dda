use crate::compare::expect_told;
use crate::script::{Line, Script, Steps, line_of, peer_at, peer_with, told};
use mq_client::{Peer, Publications, SaveError, SessionSaver, publish};
use mq_end::ClientEnd;
use mq_topic::{Qos, TopicName};
use std::alloc::Global;
use std::io::ErrorKind;
use std::process::Abort;
use std::test::Fail;

// The status, the printed text and the written bytes of a publication.
fn told_of<K: SessionSaver>(
    alloc: Global,
    peer: &mut Peer<Script, Steps, K>,
    texts: &Publications<'_>,
    clean: bool,
) -> Result<String, Fail> {
    let mut output = Vec::new(alloc);
    let status = publish(alloc, peer, texts, clean, &mut None, &mut output)?;
    let written = peer.stream().written.as_slice();
    told(alloc, status, output.as_slice(), written)
}

// The same for texts with a space between them, which are published to `t`.
fn published(alloc: Global, line: Line, qos: Qos, texts: &str) -> Result<String, Fail> {
    let topic = TopicName::parse(alloc, "t")?;
    let list: Vec<&str> = texts.split_whitespace().collect(alloc)?;
    let texts = Publications {
        topic: &topic,
        qos,
        retain: false,
        texts: list.as_slice(),
    };
    let mut peer = peer_at(alloc, line)?;
    let told = told_of(alloc, &mut peer, &texts, true);
    drop(peer);
    told
}

// A name, the reads, the quality of service, the texts; and the status with the printed text and
// the written bytes.
type Row = (&'static str, &'static str, Qos, &'static str, &'static str);

// Texts that are published.
const PUBLISHED: [Row; 4] = [
    (
        "at most once",
        "20020000",
        Qos::Q0,
        "x",
        "0 published 1\n100d00044d5154540402003c000177300400017478e000",
    ),
    (
        "at least once",
        "20020000 40020001 - 40020002",
        Qos::Q1,
        "x y",
        "0 published 2\n100d00044d5154540402003c00017732060001740001783206000174000279e000",
    ),
    (
        "exactly once",
        "2002 0000 50020001 70020001",
        Qos::Q2,
        "x",
        "0 published 1\n100d00044d5154540402003c000177340600017400017862020001e000",
    ),
    (
        "nothing",
        "20020000",
        Qos::Q2,
        "",
        "0 published 0\n100d00044d5154540402003c000177e000",
    ),
];

// Connections that end too early.
const ENDED: [Row; 5] = [
    (
        "refused",
        "20020005",
        Qos::Q1,
        "x",
        "1 closed C3\n100d00044d5154540402003c000177",
    ),
    (
        "unexpected",
        "d000",
        Qos::Q1,
        "x",
        "1 closed C2\n100d00044d5154540402003c000177",
    ),
    (
        "no packet",
        "20020000f000",
        Qos::Q1,
        "x",
        "1 closed C1\n100d00044d5154540402003c0001773206000174000178",
    ),
    (
        "ended",
        "",
        Qos::Q1,
        "x",
        "1 connection failed\n100d00044d5154540402003c000177",
    ),
    (
        "not acknowledged",
        "20020000",
        Qos::Q1,
        "x",
        "1 connection failed\n100d00044d5154540402003c0001773206000174000178",
    ),
];

fn expect(rt: &impl Abort, alloc: Global, rows: &[Row]) -> Result<(), Fail> {
    for (name, reads, qos, texts, wanted) in rows {
        let told = published(alloc, line_of(*reads), *qos, *texts);
        expect_told(rt, told, *wanted, *name)?;
    }
    Ok(())
}

fn texts_are_published(rt: &impl Abort, alloc: Global) -> Result<(), Fail> {
    expect(rt, alloc, &PUBLISHED)
}

fn connections_end(rt: &impl Abort, alloc: Global) -> Result<(), Fail> {
    expect(rt, alloc, &ENDED)
}

// A client that takes one message at a time waits before each further one.
fn a_full_client_waits(rt: &impl Abort, alloc: Global) -> Result<(), Fail> {
    let line = Line {
        capacity: 1,
        ..line_of("20020000 40020001 40020002")
    };
    let told = published(alloc, line, Qos::Q1, "x y");
    let wanted =
        "0 published 2\n100d00044d5154540402003c00017732060001740001783206000174000279e000";
    expect_told(rt, told, wanted, "full")
}

// After a minute without a packet the client sends PINGREQ.
fn a_client_pings(rt: &impl Abort, alloc: Global) -> Result<(), Fail> {
    let line = Line {
        step: 60_000,
        ..line_of("20020000 d000 40020001")
    };
    let told = published(alloc, line, Qos::Q1, "x");
    let wanted = "0 published 1\n100d00044d5154540402003c0001773206000174000178c000c000e000";
    expect_told(rt, told, wanted, "pings")
}

fn a_client_is_never_answered(rt: &impl Abort, alloc: Global) -> Result<(), Fail> {
    let line = Line {
        is_quiet: true,
        ..line_of("20020000")
    };
    let told = published(alloc, line, Qos::Q1, "x");
    let wanted = "1 connection failed\n100d00044d5154540402003c0001773206000174000178";
    expect_told(rt, told, wanted, "never answered")
}

// A session saver that works `saves` times.
#[derive(Drop)]
struct Failing {
    saves: u32,
}

impl SessionSaver for Failing {
    fn keep(&mut self, _client: &ClientEnd) -> Result<(), SaveError> {
        if self.saves == 0 {
            return Err(SaveError::Unwritten(ErrorKind::Other));
        }
        self.saves -= 1;
        Ok(())
    }
}

// One text is published, with a session that is saved `saves` times.
fn saved(alloc: Global, reads: &'static str, saves: u32) -> Result<String, Fail> {
    let topic = TopicName::parse(alloc, "t")?;
    let texts = Publications {
        topic: &topic,
        qos: Qos::Q1,
        retain: false,
        texts: &["x"],
    };
    let mut peer = peer_with(alloc, line_of(reads), Failing { saves })?;
    let told = told_of(alloc, &mut peer, &texts, false);
    drop(peer);
    told
}

// A session that can't be saved is reported, also if the connection was closed in the same step.
// Without that the reason is reported.
fn a_session_is_not_saved(rt: &impl Abort, alloc: Global) -> Result<(), Fail> {
    for (reads, saves, wanted) in [
        ("20020005", 0, "1 session not written\n"),
        (
            "20020005",
            1,
            "1 session not written\n100d00044d5154540400003c000177",
        ),
        ("20020005", 9, "1 closed C3\n100d00044d5154540400003c000177"),
        (
            "20020000 40020001",
            2,
            "1 session not written\n100d00044d5154540400003c000177",
        ),
    ] {
        expect_told(rt, saved(alloc, reads, saves), wanted, "not saved")?;
    }
    Ok(())
}

// Only reads in a row that bring nothing end the connection.
fn a_client_is_patient(rt: &impl Abort, alloc: Global) -> Result<(), Fail> {
    let line = Line {
        pauses: 600,
        ..line_of("20020000 40020001")
    };
    let told = published(alloc, line, Qos::Q1, "x");
    let wanted = "0 published 1\n100d00044d5154540402003c0001773206000174000178e000";
    expect_told(rt, told, wanted, "patient")
}

// The connection is lost at each write in turn.
fn writes_fail(rt: &impl Abort, alloc: Global) -> Result<(), Fail> {
    let reads = "20020000 50020001 70020001";
    for (fails_at, wanted) in [
        (1, "1 connection failed\n"),
        (2, "1 connection failed\n100d00044d5154540402003c000177"),
        (
            3,
            "1 connection failed\n100d00044d5154540402003c0001773406000174000178",
        ),
        (
            4,
            "1 connection failed\n100d00044d5154540402003c000177340600017400017862020001",
        ),
        (
            5,
            "0 published 1\n100d00044d5154540402003c000177340600017400017862020001e000",
        ),
    ] {
        let line = Line {
            fails_at,
            ..line_of(reads)
        };
        let told = published(alloc, line, Qos::Q2, "x");
        expect_told(rt, told, wanted, "a write fails")?;
    }
    Ok(())
}

#[test]
fn all_hold(rt: HostRuntime) -> Result<(), Fail> {
    texts_are_published(&rt, rt.alloc())?;
    connections_end(&rt, rt.alloc())?;
    a_full_client_waits(&rt, rt.alloc())?;
    a_client_pings(&rt, rt.alloc())?;
    a_client_is_never_answered(&rt, rt.alloc())?;
    a_client_is_patient(&rt, rt.alloc())?;
    a_session_is_not_saved(&rt, rt.alloc())?;
    writes_fail(&rt, rt.alloc())
}
