//! Clients that leave.

use crate::world::Action::{Look, Make, Settle};
use crate::world::Row;
use crate::world::Step::{Deliver, Leave, Open, Publish};
use crate::world::ask::Ask::{HasSession, Held, Wire};
use mq_topic::Qos;
use mq_world::Side::{Client, Server};

pub(super) static ROWS: [Row; 2] = [
    // A client that is not up can't leave.
    Row {
        name: "a client that is not up stays",
        max_packet: 65_536,
        capacity: 4,
        acts: &[
            (Make(Leave), "refused NotConnected"),
            (Look(Wire(Server)), ""),
            (Look(HasSession(Server)), "no"),
            (Make(Open), "opened"),
            (Make(Leave), "refused NotConnected"),
            (Look(Wire(Server)), "100d00044d5154540400003c000177"),
        ],
    },
    // DISCONNECT is sent, bytes in flight to the client are lost, and both sessions stay.
    Row {
        name: "a client leaves",
        max_packet: 65_536,
        capacity: 4,
        acts: &[
            (Make(Open), "opened"),
            (
                Make(Deliver(Server, 15)),
                "100d00044d5154540400003c000177, up false",
            ),
            (Make(Deliver(Client, 4)), "20020000, up false"),
            (Make(Publish(Server, Qos::Q1, "t", b"x")), "published 1"),
            (Look(Wire(Client)), "3206000174000178"),
            (Make(Leave), "left"),
            (Look(Wire(Client)), ""),
            (Look(Wire(Server)), "e000"),
            (Make(Leave), "refused NotConnected"),
            (Make(Deliver(Server, 2)), "e000, closed Left"),
            (Look(HasSession(Client)), "yes"),
            (Look(HasSession(Server)), "yes"),
            (Look(Held(Server, Qos::Q1)), "1"),
            (
                Settle,
                "opened; 100d00044d5154540400003c000177, up true; \
                 200201003a06000174000178, up true, handed t 1 78; 40020001, acknowledged 1; ; ; ; idle true",
            ),
        ],
    },
];
