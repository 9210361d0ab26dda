//! Passing time.

use crate::world::Action::{Look, Make};
use crate::world::Row;
use crate::world::Step::{Deliver, Open, Publish, Tick};
use crate::world::ask::Ask::{HasSession, Wire};
use mq_topic::Qos;
use mq_world::Side::{Client, Server};

pub(super) static ROWS: [Row; 4] = [
    // A keep-alive after its CONNECT the client asks whether the server is there.
    Row {
        name: "a client asks",
        max_packet: 65_536,
        capacity: 4,
        acts: &[
            (Make(Open), "opened"),
            (
                Make(Deliver(Server, 15)),
                "100d00044d5154540400003c000177, up false",
            ),
            (Make(Deliver(Client, 4)), "20020000, up false"),
            (Make(Tick(Client, 59_999)), "ticked"),
            (Look(Wire(Server)), ""),
            (Make(Tick(Client, 1)), "ticked"),
            (Look(Wire(Server)), "c000"),
            (Make(Deliver(Server, 2)), "c000"),
            (Look(Wire(Client)), "d000"),
            (Make(Deliver(Client, 2)), "d000, pong"),
        ],
    },
    // A server that receives nothing for more than one and a half keep-alives closes, and bytes in
    // flight to it are lost.
    Row {
        name: "a late server closes",
        max_packet: 65_536,
        capacity: 4,
        acts: &[
            (Make(Open), "opened"),
            (
                Make(Deliver(Server, 15)),
                "100d00044d5154540400003c000177, up false",
            ),
            (Make(Deliver(Client, 4)), "20020000, up false"),
            (Make(Publish(Client, Qos::Q0, "t", b"x")), "published"),
            (Make(Tick(Server, 90_000)), "ticked"),
            (Look(Wire(Server)), "300400017478"),
            (Make(Tick(Server, 1)), "ticked, closed KeepAlive"),
            (Look(Wire(Server)), ""),
            (Look(HasSession(Server)), "yes"),
            (Make(Tick(Server, 90_001)), "ticked"),
        ],
    },
    // The server's keep-alive counts from the last whole packet.
    Row {
        name: "a server hears whole packets",
        max_packet: 65_536,
        capacity: 4,
        acts: &[
            (Make(Open), "opened"),
            (
                Make(Deliver(Server, 15)),
                "100d00044d5154540400003c000177, up false",
            ),
            (Make(Deliver(Client, 4)), "20020000, up false"),
            (Make(Publish(Client, Qos::Q0, "t", b"x")), "published"),
            (Make(Tick(Server, 1_000)), "ticked"),
            (Make(Deliver(Server, 6)), "300400017478, handed t 0 78"),
            (Make(Publish(Client, Qos::Q0, "t", b"y")), "published"),
            (Make(Tick(Server, 90_000)), "ticked"),
            (Make(Deliver(Server, 5)), "3004000174"),
            (Make(Tick(Server, 1)), "ticked, closed KeepAlive"),
        ],
    },
    // The maximum of the clock is final: from then on nothing is due or late.
    Row {
        name: "clocks stop",
        max_packet: 65_536,
        capacity: 4,
        acts: &[
            (Make(Tick(Client, 1)), "ticked"),
            (Make(Tick(Server, 1)), "ticked"),
            (Make(Open), "opened"),
            (
                Make(Deliver(Server, 15)),
                "100d00044d5154540400003c000177, up false",
            ),
            (Make(Deliver(Client, 4)), "20020000, up false"),
            (Make(Tick(Client, u64::MAX)), "ticked"),
            (Look(Wire(Server)), "c000"),
            (Make(Tick(Client, u64::MAX)), "ticked"),
            (Look(Wire(Server)), "c000"),
            (Make(Tick(Server, u64::MAX)), "ticked, closed KeepAlive"),
            (Make(Open), "opened, client dropped"),
            (
                Make(Deliver(Server, 15)),
                "100d00044d5154540400003c000177, up true",
            ),
            (Make(Tick(Server, u64::MAX)), "ticked"),
        ],
    },
];
