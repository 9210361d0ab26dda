//! Sentences for standard error.

ghost use Rattle.std.specs.Prelude.{◌≡◌};
ghost use Rattle.mq_pubsub_programs.specs.Prelude.{fault_status, status_of};

use crate::fault::Fault;
use crate::link::NoLink;
use mq_end::{CloseReason, PublishRefusal};
use mq_packet::RefusalCode;
use mq_pubsub::RunError;
use mq_pubsub_runs::Tally;
use mq_topic::Qos;
use std::fmt;
use std::io::ErrorKind;

/// The status of an error.
pub(crate) const FAILED: u8 = 1;

/// The status if an allocation fails.
pub(crate) const NO_MEMORY: u8 = 3;

/// The status if the time of a run is over.
const TIMED_OUT: u8 = 27;

/// The status if the output fails.
const NO_OUTPUT: u8 = 4;

/// The values of the last digits of groups of three, the greatest first.
const DIVISORS: [u64; 7] = [
    1_000_000_000_000_000_000,
    1_000_000_000_000_000,
    1_000_000_000_000,
    1_000_000_000,
    1_000_000,
    1_000,
    1,
];

/// Displays a number with a comma before each three digits.
#[derive(Clone, Copy)]
pub(crate) struct Grouped(pub(crate) u64);

impl fmt::Display for Grouped {
    fn fmt<W: fmt::Write>(&self, f: &mut fmt::Formatter<W>) -> fmt::Result {
        let mut is_begun = false;
        for divisor in &DIVISORS {
            let groups = self.0.checked_div(*divisor).unwrap_or(0);
            if is_begun {
                let group = groups % 1_000;
                write!(f, ",{group:03}")?;
            } else if groups > 0 || *divisor == 1 {
                write!(f, "{groups}")?;
                is_begun = true;
            }
        }
        Ok(())
    }
}

/// A broker, for sentences.
#[derive(Clone, Copy)]
pub(crate) struct Place<'a> {
    pub(crate) command: &'a str,
    pub(crate) host: &'a str,
    pub(crate) port: u16,
    pub(crate) failure: Option<NoLink>,
    /// The session file.
    pub(crate) session: Option<&'a str>,
    pub(crate) has_user: bool,
    pub(crate) retries: bool,
}

/// The work of a run, for sentences.
#[derive(Clone, Copy)]
pub(crate) enum Work {
    /// Messages were published with this quality of service.
    Published(Tally, Qos),
    /// This many messages were printed.
    Printed(u64),
}

impl fmt::Display for Work {
    fn fmt<W: fmt::Write>(&self, f: &mut fmt::Formatter<W>) -> fmt::Result {
        match self {
            Work::Published(tally, qos) => {
                let (done, taken) = (Grouped(tally.done), Grouped(tally.taken));
                let verb = if *qos == Qos::Q0 {
                    "written"
                } else {
                    "acknowledged"
                };
                write!(f, "{done} of {taken} messages were {verb}")
            }
            Work::Printed(count) => {
                let count = Grouped(*count);
                write!(f, "{count} messages were printed")
            }
        }
    }
}

/// The status of a run.
pub(crate) fn status_of(end: Result<(), RunError>) -> u8
    ensures { result ≡ status_of end }
{
    match end {
        Ok(()) => 0,
        Err(RunError::TimedOut) => TIMED_OUT,
        Err(RunError::Output) => NO_OUTPUT,
        Err(RunError::Memory) => NO_MEMORY,
        Err(RunError::Closed(CloseReason::Refused(code))) => code.number(),
        Err(_) => FAILED,
    }
}

// Why a broker refuses a connection (3.2.2.3), and what to do.
fn refusal(code: RefusalCode, has_user: bool) -> (&'static str, &'static str) {
    match code {
        RefusalCode::UnacceptableProtocolVersion => (
            "it does not speak MQTT 3.1.1",
            "use another broker, or allow MQTT 3.1.1 there",
        ),
        RefusalCode::IdentifierRejected => ("identifier rejected", "give another one with -i"),
        RefusalCode::ServerUnavailable => ("server unavailable", "try again later"),
        RefusalCode::BadUserNameOrPassword => { ("bad user name or password", "check -u and -P") }
        RefusalCode::NotAuthorized => (
            "not authorized",
            if has_user {
                "check -u and -P, and the rights of the user"
            } else {
                "give a user name and a password with -u and -P"
            },
        ),
    }
}

// Says why no connection was made.
fn tell_unreachable<R: Eprint>(rt: &R, place: &Place<'_>) {
    let Place {
        command,
        host,
        port,
        ..
    } = *place;
    let _ = match place.failure {
        Some(NoLink::Unresolved) => eprintln!(rt;
            "mqtt {command}: the name '{host}' has no address: check -h, or give an address such as 127.0.0.1."
        ),
        Some(NoLink::Refused(kind)) => eprintln!(rt;
            "mqtt {command}: cannot connect to {host}:{port}: {kind}; check that a broker listens there, and -h and -p."
        ),
        None => eprintln!(rt; "mqtt {command}: cannot connect to {host}:{port}."),
    };
}

// Says why the client closed.
fn tell_closed<R: Eprint>(rt: &R, place: &Place<'_>, reason: CloseReason, work: Work) {
    let Place {
        command,
        host,
        port,
        ..
    } = *place;
    let _ = match reason {
        CloseReason::Refused(code) => {
            let (why, advice) = refusal(code, place.has_user);
            let number = code.number();
            eprintln!(rt;
                "mqtt {command}: the broker at {host}:{port} refused the connection: {why} (code {number}); {advice}."
            )
        }
        CloseReason::SessionLost => match place.session {
            Some(file) => eprintln!(rt;
                "mqtt {command}: the broker at {host}:{port} lost the session; {work}, and others may have arrived; remove {file} to give them up."
            ),
            None => eprintln!(rt;
                "mqtt {command}: the broker at {host}:{port} lost the session; {work}, and others may have arrived."
            ),
        },
        CloseReason::Fault(fault) => {
            let kind = fault.kind;
            eprintln!(rt;
                "mqtt {command}: {host}:{port} sent bytes that are not MQTT 3.1.1 (fault {kind}); {work}; check -h and -p."
            )
        }
        reason => eprintln!(rt;
            "mqtt {command}: the connection to {host}:{port} was closed: {reason}; {work}."
        ),
    };
}

// Says that the connection was lost.
fn tell_lost<R: Eprint>(rt: &R, place: &Place<'_>, work: Work) {
    let Place {
        command,
        host,
        port,
        ..
    } = *place;
    let advice = if place.retries {
        ""
    } else {
        "; --retry makes new connections"
    };
    let _ = eprintln!(rt;
        "mqtt {command}: the connection to {host}:{port} was lost; {work}{advice}."
    );
}

// Says what the broker or the client refused.
fn tell_refused<R: Eprint>(rt: &R, place: &Place<'_>, error: RunError, work: Work) {
    let Place {
        command,
        host,
        port,
        ..
    } = *place;
    let _ = match error {
        RunError::NotSubscribed => eprintln!(rt;
            "mqtt {command}: the broker at {host}:{port} refused all subscriptions; check -t and the rights of the user."
        ),
        RunError::TooLarge | RunError::Refused(PublishRefusal::TooLarge) => eprintln!(rt;
            "mqtt {command}: a message is too large for MQTT; {work}; publish less than 256 MB at once."
        ),
        RunError::Unwritten => eprintln!(rt;
            "mqtt {command}: a connection to {host}:{port} was lost, and with it messages of QoS 0; {work}; -q 1 repeats them."
        ),
        error => eprintln!(rt; "mqtt {command}: {error}; {work}."),
    };
}

// Says what the system refused.
fn tell_system<R: Eprint>(rt: &R, place: &Place<'_>, error: RunError, work: Work) {
    let command = place.command;
    let _ = match error {
        RunError::Unsaved(kind) => {
            let file = place.session.unwrap_or("the session");
            eprintln!(rt;
                "mqtt {command}: the session file {file} cannot be written: {kind}; {work}."
            )
        }
        RunError::Input(kind) => {
            eprintln!(rt; "mqtt {command}: standard input cannot be read: {kind}; {work}.")
        }
        RunError::Output => eprintln!(rt; "mqtt {command}: standard output cannot be written."),
        error => eprintln!(rt; "mqtt {command}: {error}; {work}."),
    };
}

/// Says why a command stopped before its run. Returns the status.
pub(crate) fn tell_fault<R: Eprint>(rt: &R, command: &str, fault: Fault) -> u8
    ensures { result ≡ fault_status fault }
{
    match fault {
        Fault::Said(sentence) => {
            let sentence = sentence.as_str();
            let _ = eprintln!(rt; "mqtt {command}: {sentence}.");
            FAILED
        }
        Fault::Memory => {
            let _ = eprintln!(rt; "mqtt {command}: out of memory.");
            NO_MEMORY
        }
    }
}

/// Says why a run stopped early.
pub(crate) fn tell_end<R: Eprint>(rt: &R, place: &Place<'_>, error: RunError, work: Work) {
    let command = place.command;
    match error {
        RunError::Unreachable => tell_unreachable(rt, place),
        RunError::Closed(reason) => tell_closed(rt, place, reason, work),
        RunError::Lost => tell_lost(rt, place, work),
        RunError::TimedOut => {
            let _ = eprintln!(rt; "mqtt {command}: the time of -W is over; {work}.");
        }
        RunError::Refused(_) | RunError::NotSubscribed | RunError::TooLarge | RunError::Unwritten =>
            tell_refused(rt, place, error, work),
        RunError::Unsaved(_) | RunError::Input(_) | RunError::Output | RunError::Memory => {
            tell_system(rt, place, error, work);
        }
    }
}

/// Says why a file cannot be read, for an option.
pub(crate) fn unread_file(kind: ErrorKind) -> &'static str {
    match kind {
        ErrorKind::NotFound => "there is no such file",
        ErrorKind::PermissionDenied => "permission denied",
        ErrorKind::IsADirectory => "it is a directory",
        _ => "it cannot be read",
    }
}
