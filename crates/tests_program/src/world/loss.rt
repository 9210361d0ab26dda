//! Bytes that are lost.

use crate::world::Action::{Look, Make, Settle};
use crate::world::Row;
use crate::world::Step::{Deliver, Lose, Open, Publish, Tick};
use crate::world::ask::Ask::{Counts, Freed, HasSession, Held, IsIdle, Wire};
use mq_topic::Qos;
use mq_world::Side::{Client, Server};

pub(super) static ROWS: [Row; 7] = [
    // A cut inside a packet: it did not come, and comes with DUP when it is sent again.
    Row {
        name: "a packet that is cut comes again",
        max_packet: 65_536,
        capacity: 4,
        acts: &[
            (Make(Open), "opened"),
            (
                Make(Deliver(Server, 15)),
                "100d00044d5154540400003c000177, up false",
            ),
            (Make(Deliver(Client, 4)), "20020000, up false"),
            (Make(Publish(Client, Qos::Q2, "t", b"x")), "published 1"),
            (Look(Held(Client, Qos::Q2)), "1"),
            (Make(Deliver(Server, 7)), "34060001740001"),
            (Make(Lose(Client)), "dropped true"),
            (Look(IsIdle(Client)), "no"),
            (
                Settle,
                "opened, server dropped; 100d00044d5154540400003c000177, up true; 20020100, up true; \
                 3c06000174000178, handed t 2 78; 50020001; 62020001; 70020001; idle true",
            ),
            (Look(Counts(Client, Qos::Q2)), "accepted 1, handed 0"),
            (Look(Counts(Server, Qos::Q2)), "accepted 0, handed 1"),
            (Look(Held(Client, Qos::Q2)), "0"),
            (Look(IsIdle(Client)), "yes"),
        ],
    },
    // PUBREC is lost: the message arrived, and is delivered once.
    Row {
        name: "a lost pubrec",
        max_packet: 65_536,
        capacity: 4,
        acts: &[
            (Make(Open), "opened"),
            (
                Make(Deliver(Server, 15)),
                "100d00044d5154540400003c000177, up false",
            ),
            (Make(Deliver(Client, 4)), "20020000, up false"),
            (Make(Publish(Client, Qos::Q2, "t", b"x")), "published 1"),
            (Make(Deliver(Server, 8)), "3406000174000178, handed t 2 78"),
            (Make(Lose(Client)), "dropped true"),
            (
                Settle,
                "opened, server dropped; 100d00044d5154540400003c000177, up true; 20020100, up true; \
                 3c06000174000178; 50020001; 62020001; 70020001; idle true",
            ),
            (Look(Counts(Client, Qos::Q2)), "accepted 1, handed 0"),
            (Look(Counts(Server, Qos::Q2)), "accepted 0, handed 1"),
        ],
    },
    // PUBACK is lost: the message is delivered twice, and then freed.
    Row {
        name: "a lost puback",
        max_packet: 65_536,
        capacity: 4,
        acts: &[
            (Make(Open), "opened"),
            (
                Make(Deliver(Server, 15)),
                "100d00044d5154540400003c000177, up false",
            ),
            (Make(Deliver(Client, 4)), "20020000, up false"),
            (Make(Publish(Client, Qos::Q1, "t", b"x")), "published 1"),
            (Make(Deliver(Server, 8)), "3206000174000178, handed t 1 78"),
            (Make(Lose(Client)), "dropped true"),
            (Look(Freed(Client)), "freed []"),
            (
                Settle,
                "opened, server dropped; 100d00044d5154540400003c000177, up true; 20020100, up true; \
                 3a06000174000178, handed t 1 78; 40020001, acknowledged 1; ; ; idle true",
            ),
            (Look(Counts(Client, Qos::Q1)), "accepted 1, handed 0"),
            (Look(Counts(Server, Qos::Q1)), "accepted 0, handed 2"),
            (Look(Freed(Client)), "freed [0]"),
        ],
    },
    // The first CONNACK is lost, and the client has room for one message: its first PUBLISH has DUP
    // 0.
    Row {
        name: "a full sender",
        max_packet: 65_536,
        capacity: 1,
        acts: &[
            (Make(Open), "opened"),
            (
                Make(Deliver(Server, 15)),
                "100d00044d5154540400003c000177, up false",
            ),
            (Make(Lose(Client)), "dropped true"),
            (Make(Publish(Client, Qos::Q2, "t", b"x")), "published 1"),
            (Make(Publish(Client, Qos::Q2, "t", b"y")), "refused Full"),
            (
                Settle,
                "opened, server dropped; 100d00044d5154540400003c000177, up true; 20020100, up true; \
                 3406000174000178, handed t 2 78; 50020001; 62020001; 70020001; idle true",
            ),
        ],
    },
    // The server has a session from the first CONNECT on, also without a connection.
    Row {
        name: "a server has a session from connect on",
        max_packet: 65_536,
        capacity: 4,
        acts: &[
            (Look(HasSession(Client)), "yes"),
            (Look(HasSession(Server)), "no"),
            (Make(Open), "opened"),
            (Look(HasSession(Server)), "no"),
            (Make(Deliver(Server, 14)), "100d00044d5154540400003c0001"),
            (Look(HasSession(Server)), "no"),
            (Make(Deliver(Server, 1)), "77, up false"),
            (Look(HasSession(Server)), "yes"),
            (Make(Lose(Server)), "dropped true"),
            (Look(HasSession(Server)), "yes"),
            (Look(HasSession(Client)), "yes"),
        ],
    },
    // Bytes without a connection are lost (4.2), and a new connection ends the old one (3.1.4).
    Row {
        name: "bytes without a connection are lost",
        max_packet: 65_536,
        capacity: 4,
        acts: &[
            (Make(Open), "opened"),
            (
                Make(Deliver(Server, 15)),
                "100d00044d5154540400003c000177, up false",
            ),
            (Make(Deliver(Client, 4)), "20020000, up false"),
            (Make(Lose(Server)), "dropped true"),
            (Make(Publish(Client, Qos::Q0, "t", b"x")), "published"),
            (Make(Deliver(Server, 100)), "300400017478, lost"),
            (Make(Open), "opened, client dropped"),
            (Make(Open), "opened, client dropped, server dropped"),
        ],
    },
    // The output of an end toward a closed one stays in flight, also if the end itself is then
    // lost.
    Row {
        name: "bytes toward a closed end stay",
        max_packet: 65_536,
        capacity: 4,
        acts: &[
            (Make(Open), "opened"),
            (
                Make(Deliver(Server, 15)),
                "100d00044d5154540400003c000177, up false",
            ),
            (Make(Deliver(Client, 4)), "20020000, up false"),
            (Make(Lose(Server)), "dropped true"),
            (Make(Publish(Client, Qos::Q1, "t", b"x")), "published 1"),
            (Look(Wire(Server)), "3206000174000178"),
            (Make(Tick(Client, 60_000)), "ticked"),
            (Look(Wire(Server)), "3206000174000178c000"),
            (Make(Lose(Client)), "dropped true"),
            (Look(Wire(Server)), "3206000174000178c000"),
            (Make(Deliver(Server, 100)), "3206000174000178c000, lost"),
        ],
    },
];
