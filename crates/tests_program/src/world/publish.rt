//! The messages that sides publish.

use crate::world::Action::{Look, Make};
use crate::world::Row;
use crate::world::Step::{Deliver, Lose, Open, Publish};
use crate::world::ask::Ask::{Counts, HasFailed, Wire};
use mq_topic::Qos;
use mq_world::Side::{Client, Server};

pub(super) static ROWS: [Row; 3] = [
    // The greatest remaining length is 64, of which a payload with quality of service 2 has up to
    // 59 bytes.
    Row {
        name: "messages have a greatest length",
        max_packet: 64,
        capacity: 4,
        acts: &[
            (
                Make(Publish(Client, Qos::Q2, "t", &[b'x'; 60])),
                "refused TooLarge",
            ),
            (
                Make(Publish(Client, Qos::Q2, "t", &[b'x'; 59])),
                "published 1",
            ),
        ],
    },
    Row {
        name: "messages are refused",
        max_packet: 65_536,
        capacity: 4,
        acts: &[
            (
                Make(Publish(Server, Qos::Q0, "t", b"x")),
                "refused NoSession",
            ),
            (
                Make(Publish(Server, Qos::Q1, "t", b"x")),
                "refused NoSession",
            ),
            (
                Make(Publish(Client, Qos::Q0, "t", b"x")),
                "refused NotConnected",
            ),
            (Make(Deliver(Server, 1)), ""),
            (Make(Lose(Server)), "dropped false"),
            (Look(Counts(Client, Qos::Q0)), "accepted 0, handed 0"),
            (Look(Counts(Server, Qos::Q1)), "accepted 0, handed 0"),
            (Look(HasFailed), "no"),
        ],
    },
    // Messages in both directions.
    Row {
        name: "both sides publish",
        max_packet: 65_536,
        capacity: 4,
        acts: &[
            (
                Make(Publish(Server, Qos::Q1, "t", b"x")),
                "refused NoSession",
            ),
            (Make(Open), "opened"),
            (Look(Wire(Server)), "100d00044d5154540400003c000177"),
            (
                Make(Deliver(Server, 15)),
                "100d00044d5154540400003c000177, up false",
            ),
            (Make(Publish(Server, Qos::Q1, "t", b"x")), "published 1"),
            (Make(Publish(Client, Qos::Q2, "u", b"y")), "published 1"),
            (Look(Wire(Client)), "200200003206000174000178"),
            (
                Make(Deliver(Client, 100)),
                "200200003206000174000178, up false, handed t 1 78",
            ),
            (Look(Wire(Client)), ""),
            (Look(Wire(Server)), "340600017500017940020001"),
            (
                Make(Deliver(Server, 100)),
                "340600017500017940020001, handed u 2 79, acknowledged 1",
            ),
            (Look(Wire(Client)), "50020001"),
            (Make(Publish(Client, Qos::Q0, "t", b"z")), "published"),
            (Make(Deliver(Server, 100)), "30040001747a, handed t 0 7a"),
            (Look(Counts(Client, Qos::Q0)), "accepted 1, handed 0"),
            (Look(Counts(Server, Qos::Q0)), "accepted 0, handed 1"),
            (Look(Counts(Client, Qos::Q1)), "accepted 0, handed 1"),
            (Look(Counts(Server, Qos::Q1)), "accepted 1, handed 0"),
            (Look(Counts(Server, Qos::Q2)), "accepted 0, handed 1"),
        ],
    },
];
