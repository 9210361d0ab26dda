//! The commands of the program.

ghost use Rattle.std.specs.Prelude.{◌≡◌};
ghost use Rattle.mq_cli.specs.Prelude.{job_source};

use crate::broker::Broker;
use mq_topic::Qos;

/// The source of a job's bytes.
#[derive(Clone, Copy, Debug, PartialEq, Eq)]
pub enum Source<'a> {
    /// The file of this name.
    File(&'a str),
    /// The standard input.
    Standard,
}

/// A parsed command line.
#[derive(Debug, Drop, PartialEq, Eq)]
pub enum Command<'a> {
    /// A job, which reads bytes and prints.
    Job(Job<'a>),
    /// To serve as a broker.
    Serve(Serve),
    /// To serve as a broker until it is stopped.
    Broker(Broker<'a>),
    /// Prints the journal of a broker in this file.
    Journal(&'a str),
    /// To print a line for a file of passwords, for the user of this name.
    Password(&'a str),
    /// To publish texts as a client.
    Publish(Publish<'a>),
    /// Prints the messages that a client receives.
    Collect(Collect<'a>),
    /// To run the broker and the clients of a loopback file.
    Loopback(Source<'a>),
    /// To replay a schedule and draw it.
    Draw(Draw<'a>),
    /// To print a script for bash that completes commands and options.
    Completion,
    /// To print a manual page.
    Manual,
}

/// A schedule to replay and draw.
#[derive(Clone, Copy, Debug, PartialEq, Eq)]
pub struct Draw<'a> {
    /// The schedule.
    pub source: Source<'a>,
    /// The file for the image.
    pub image: &'a str,
}

/// A broker on this machine.
#[derive(Clone, Copy, Debug, PartialEq, Eq)]
pub struct Serve {
    /// The port that it listens on; 0 takes a free one.
    pub port: u16,
    /// How many connections it serves before it ends.
    pub connections: u32,
    /// How many threads serve them, 1 to 64.
    pub workers: u8,
}

/// A client that publishes.
#[derive(Debug, Drop, PartialEq, Eq)]
pub struct Publish<'a> {
    /// The port of the broker, on this machine.
    pub port: u16,
    /// The client identifier, of 65,535 bytes at most.
    pub id: &'a str,
    /// The topic name as given, which may be invalid.
    pub topic: &'a str,
    /// The quality of service of the messages.
    pub qos: Qos,
    /// Whether the broker is asked to keep the last message for clients that come later (3.3.1.3).
    pub retain: bool,
    /// The file that keeps the session from one run to the next.
    pub session: Option<&'a str>,
    /// The session in the file is given up, and a new one begins. Only with a session file.
    pub forget: bool,
    /// The payloads, one message each. Empty only with a session file.
    pub texts: Vec<&'a str>,
}

/// A client that takes messages and prints them.
#[derive(Clone, Copy, Debug, PartialEq, Eq)]
pub struct Collect<'a> {
    /// The port of the broker, on this machine.
    pub port: u16,
    /// The client identifier, of 65,535 bytes at most.
    pub id: &'a str,
    /// The topic filter as given, which may be invalid.
    pub filter: &'a str,
    /// The greatest quality of service that it asks for.
    pub qos: Qos,
    /// How many messages it waits for.
    pub count: u32,
    /// Whether it begins with a clean session and keeps none (3.1.2.4).
    pub clean: bool,
}

/// A command that only reads input and prints.
#[derive(Clone, Copy, Debug, PartialEq, Eq)]
pub enum Job<'a> {
    /// To print the packets of bytes.
    Show {
        /// The bytes, as hexadecimal digits.
        hex: &'a str,
        /// A remaining length may have more bytes than it needs (2.2.3).
        lenient: bool,
    },
    /// To print the packets of a file.
    ShowFrom {
        /// The file.
        source: Source<'a>,
        /// A remaining length may have more bytes than it needs (2.2.3).
        lenient: bool,
    },
    /// To count the packets of a file.
    Check {
        /// The file.
        source: Source<'a>,
        /// A remaining length may have more bytes than it needs (2.2.3).
        lenient: bool,
    },
    /// To match a topic filter against a topic name.
    Match {
        /// The filter.
        filter: &'a str,
        /// The name.
        name: &'a str,
    },
    /// To replay the schedule of a file.
    Replay {
        /// The file.
        source: Source<'a>,
    },
    /// To print a schedule that is generated.
    Random {
        /// The start value of the generator: the same value gives the same schedule.
        start: u64,
        /// How many events it has.
        steps: u32,
    },
}

impl<'a> Job<'a> {
    /// The source of the job's bytes, or `None` if it reads none.
    pub fn source(&self) -> Option<Source<'a>>
        ensures { result ≡ job_source self.now }
    {
        match self {
            Job::ShowFrom { source, .. } | Job::Check { source, .. } | Job::Replay { source } => {
                Some(*source)
            }
            Job::Show { .. } | Job::Match { .. } | Job::Random { .. } => None,
        }
    }
}
