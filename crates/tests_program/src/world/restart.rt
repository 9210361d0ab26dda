//! The client's program ends and continues.

use crate::world::Action::{Look, Make, Settle};
use crate::world::Row;
use crate::world::Step::{Deliver, Open, Publish, Restart};
use crate::world::ask::Ask::{Counts, HasSession, Held, Wire};
use mq_topic::Qos;
use mq_world::Side::{Client, Server};

pub(super) static ROWS: [Row; 2] = [
    // The client's messages survive its program, and its identifiers continue; bytes in flight to
    // the server stay.
    Row {
        name: "a client goes on with its session",
        max_packet: 65_536,
        capacity: 4,
        acts: &[
            (Make(Open), "opened"),
            (
                Make(Deliver(Server, 15)),
                "100d00044d5154540400003c000177, up false",
            ),
            (Make(Deliver(Client, 4)), "20020000, up false"),
            (Make(Publish(Client, Qos::Q1, "t", b"a")), "published 1"),
            (Make(Deliver(Server, 8)), "3206000174000161, handed t 1 61"),
            (Make(Deliver(Client, 4)), "40020001, acknowledged 1"),
            (Make(Publish(Client, Qos::Q2, "t", b"b")), "published 2"),
            (Make(Publish(Server, Qos::Q1, "t", b"c")), "published 1"),
            (Make(Restart), "restarted true"),
            (Look(Held(Client, Qos::Q2)), "1"),
            (Look(Held(Server, Qos::Q1)), "1"),
            (Look(Wire(Client)), ""),
            (Look(Wire(Server)), "3406000174000262"),
            (Make(Restart), "restarted false"),
            (Make(Publish(Client, Qos::Q1, "t", b"d")), "published 3"),
            (
                Settle,
                "opened, server dropped; 100d00044d5154540400003c000177, up true; \
                 200201003a06000174000163, up true, handed t 1 63; \
                 3c06000174000262320600017400036440020001, handed t 2 62, handed t 1 64, acknowledged 1; \
                 5002000240020003, acknowledged 3; 62020002; 70020002; idle true",
            ),
            (Look(Counts(Client, Qos::Q1)), "accepted 2, handed 1"),
            (Look(Counts(Server, Qos::Q2)), "accepted 0, handed 1"),
        ],
    },
    // A client that was never connected continues as one; and so does one whose CONNACK did not
    // come.
    Row {
        name: "a client without a connection goes on",
        max_packet: 65_536,
        capacity: 4,
        acts: &[
            (Make(Restart), "restarted false"),
            (Look(HasSession(Client)), "yes"),
            (Look(HasSession(Server)), "no"),
            (Make(Open), "opened"),
            (
                Make(Deliver(Server, 15)),
                "100d00044d5154540400003c000177, up false",
            ),
            (Look(Wire(Client)), "20020000"),
            (Make(Restart), "restarted true"),
            (Look(Wire(Client)), ""),
            (
                Settle,
                "opened, server dropped; 100d00044d5154540400003c000177, up true; \
                 20020100, up true; ; ; ; ; idle true",
            ),
        ],
    },
];
