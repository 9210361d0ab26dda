//! Lines for the standard error that say why a client program stopped early.

use mq_client::{ClientError, Halt, LoadFailure, SaveError, Stop};
use mq_end::CloseReason;
use mq_packet::{Escaped, RefusalCode};
use mq_topic::{Qos, TopicFault};
use std::io::{ErrorKind, Write};
use std::{fmt, io};

/// The progress that a client program makes.
#[derive(Clone, Copy)]
pub(crate) enum Progress<'a> {
    /// Texts of this number are published with this quality of service.
    Texts(usize, Qos),
    /// Messages of this number are collected with this filter.
    Messages(u32, &'a str),
}

/// A client program that stopped early.
#[derive(Clone, Copy)]
pub(crate) struct Stopped<'a> {
    /// The port of the broker.
    pub(crate) port: u16,
    /// The name of the session file.
    pub(crate) session: Option<&'a str>,
    /// Why no connection could be made.
    pub(crate) failure: Option<ErrorKind>,
    /// The messages of the program.
    pub(crate) progress: Progress<'a>,
}

// The part of the messages that is done.
#[derive(Clone, Copy)]
struct Done<'a>(usize, Progress<'a>);

impl fmt::Display for Done<'_> {
    fn fmt<W: fmt::Write>(&self, f: &mut fmt::Formatter<W>) -> fmt::Result {
        let done = self.0;
        match self.1 {
            Progress::Texts(all, Qos::Q0) => write!(f, "{done} of {all} texts were queued"),
            Progress::Texts(all, _) => write!(f, "{done} of {all} texts were acknowledged"),
            Progress::Messages(all, _) => write!(f, "{done} of {all} messages arrived"),
        }
    }
}

// Why a broker refuses a connection (3.2.2.3).
fn refusal(code: RefusalCode) -> &'static str {
    match code {
        RefusalCode::UnacceptableProtocolVersion => "unacceptable protocol version",
        RefusalCode::IdentifierRejected => "identifier rejected",
        RefusalCode::ServerUnavailable => "server unavailable",
        RefusalCode::BadUserNameOrPassword => "bad user name or password",
        RefusalCode::NotAuthorized => "not authorized",
    }
}

fn write_closed<E: Write>(
    errors: &mut E,
    stopped: &Stopped<'_>,
    reason: CloseReason,
) -> io::Result<()> {
    match reason {
        CloseReason::Fault(fault) => writeln!(
            errors,
            "mqtt: the broker sent bytes that are not a packet (fault {})",
            fault.kind
        ),
        CloseReason::Unexpected => writeln!(
            errors,
            "mqtt: the broker sent a packet that is not allowed at this point"
        ),
        CloseReason::Refused(code) => writeln!(
            errors,
            "mqtt: the broker refused the connection: {} (code {})",
            refusal(code),
            code.number()
        ),
        CloseReason::SessionLost => writeln!(
            errors,
            "mqtt: the broker lost the session of {}; some pending messages may not have arrived; --forget gives them up",
            stopped.session.unwrap_or("this client")
        ),
        reason => writeln!(errors, "mqtt: the connection was closed: {reason}"),
    }
}

fn write_lost<E: Write>(errors: &mut E, stopped: &Stopped<'_>, halt: Halt) -> io::Result<()> {
    let port = stopped.port;
    let done = Done(halt.done, stopped.progress);
    match stopped.failure {
        Some(kind) => writeln!(errors, "mqtt: cannot connect to 127.0.0.1:{port}: {kind}"),
        None if halt.is_silent => {
            writeln!(errors, "mqtt: the broker was silent for too long; {done}")
        }
        None => writeln!(errors, "mqtt: the broker closed the connection; {done}"),
    }
}

fn write_halt<E: Write>(errors: &mut E, stopped: &Stopped<'_>, halt: Halt) -> io::Result<()> {
    let file = stopped.session.unwrap_or("the session file");
    match (halt.error, stopped.progress) {
        (ClientError::Closed(reason), _) => write_closed(errors, stopped, reason),
        (ClientError::Lost, _) => write_lost(errors, stopped, halt),
        (ClientError::Refused(why), _) => {
            writeln!(errors, "mqtt: a text cannot be published: {why}")
        }
        (ClientError::NotSubscribed, Progress::Messages(_, filter)) => writeln!(
            errors,
            "mqtt: the broker refused the subscription to '{}'",
            Escaped(filter)
        ),
        (ClientError::NotSubscribed, Progress::Texts(..)) => Ok(()),
        (ClientError::SaveError(kind), _) => {
            writeln!(errors, "mqtt: cannot write {file}: {kind}")
        }
        (ClientError::Memory, _) => Ok(()),
    }
}

fn write_unloaded<E: Write>(errors: &mut E, name: &str, why: LoadFailure) -> io::Result<()> {
    match why {
        LoadFailure::Unread(ErrorKind::IsADirectory) => {
            writeln!(errors, "mqtt: {name} is a directory")
        }
        LoadFailure::Unread(kind) => writeln!(errors, "mqtt: cannot read {name}: {kind}"),
        LoadFailure::Session(why) => writeln!(errors, "mqtt: {name}: {why} ({})", why.code()),
        LoadFailure::Memory => Ok(()),
    }
}

// The mark of a lost session was not written.
fn write_unmarked<E: Write>(errors: &mut E, name: &str, why: SaveError) -> io::Result<()> {
    write!(
        errors,
        "mqtt: the broker lost the session of {name}, and the next run will not report it: "
    )?;
    match why {
        SaveError::Unwritten(kind) => write!(errors, "cannot write {name}: {kind}")?,
        SaveError::Memory => write!(errors, "out of memory")?,
    }
    writeln!(errors, "; --forget begins a new session")
}

/// Says why a program stopped early. Nothing is reported if the output is not writable.
pub(crate) fn explain_stop<E: Write>(errors: &mut E, stopped: &Stopped<'_>, stop: Option<Stop>) {
    let name = stopped.session.unwrap_or("the session file");
    let _ = match stop {
        Some(Stop::Halted(halt)) => write_halt(errors, stopped, halt),
        Some(Stop::Unloaded(why)) => write_unloaded(errors, name, why),
        Some(Stop::Unmarked(why)) => write_unmarked(errors, name, why),
        None => Ok(()),
    };
}

/// Says that another run holds the session of a file.
pub(crate) fn explain_in_use<E: Write>(errors: &mut E, name: &str) {
    let _ = writeln!(errors, "mqtt: another run of publish uses {name}");
}

/// Says that the lock of the session in a file could not be taken.
pub(crate) fn explain_unlocked<E: Write>(errors: &mut E, name: &str, kind: ErrorKind) {
    let _ = writeln!(errors, "mqtt: cannot write {name}.lock: {kind}");
}

// The fault of a topic name or filter.
fn fault_text(fault: TopicFault) -> &'static str {
    match fault {
        TopicFault::Empty => "it is empty",
        TopicFault::Nul => "U+0000 is not allowed",
        TopicFault::TooLong => "it has more than 65,535 bytes",
        TopicFault::Wildcard => "wildcards are not allowed",
        TopicFault::Plus => "`+` must be alone in its level",
        TopicFault::Hash => "`#` must be alone in the last level",
        TopicFault::Memory => "out of memory",
    }
}

/// Says why an argument is not a topic name, or not a topic filter.
pub(crate) fn explain_topic<E: Write>(errors: &mut E, kind: &str, topic: &str, fault: TopicFault) {
    let (text, code) = (fault_text(fault), fault.code());
    let _ = match fault {
        TopicFault::TooLong => writeln!(errors, "mqtt: topic {kind}: {text} ({code})"),
        _ => writeln!(
            errors,
            "mqtt: topic {kind} '{}': {text} ({code})",
            Escaped(topic)
        ),
    };
}
