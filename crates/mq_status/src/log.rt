//! Log lines.

ghost use Rattle.std.specs.Prelude.{◌≡◌, ◌++◌, Some, OnOk, codes};
ghost use Rattle.mq_status.specs.Prelude.{DisplaysOnOk, Appends, LogLaws, close_text, close_words, line_text, refusal_text, refusal_words};

use mq_end::CloseReason;
use mq_packet::{Escaped, RefusalCode};
use mq_route::HubClose;
use std::io::Write;
use std::{fmt, io};

/// An event that the log reports in one line. Clients and addresses are printed as by
/// [`mq_packet::Escaped`], so that no client can break or forge a line.
#[derive(Clone, Copy)]
pub enum LogLine<'a> {
    /// A client is connected.
    Connected { client: &'a str, address: &'a str },
    /// A connection on which no client is connected is closed.
    ClosedEarly { address: &'a str, reason: HubClose },
    /// A client's connection is closed.
    Closed { client: &'a str, reason: HubClose },
    /// A client's session is removed.
    SessionEnded { client: &'a str },
    /// A client missed this number of messages since the last line that says so.
    Missed { client: &'a str, messages: u64 },
    /// A CONNECT is refused.
    Refused { address: &'a str, code: RefusalCode },
    /// A client reads too slowly: this number of bytes is pending.
    Slow { client: &'a str, pending: u64 },
}

// The reason of a close in words.
fn close_words(reason: HubClose) -> &'static str
    ensures { result.now ≡ close_words reason }
{
    match reason {
        HubClose::Own(CloseReason::Fault(_)) => "malformed packet",
        HubClose::Own(CloseReason::Unexpected) => "unexpected packet",
        HubClose::Own(CloseReason::Refused(_)) => "CONNECT refused",
        HubClose::Own(CloseReason::SessionLost) => "session lost",
        HubClose::Own(CloseReason::KeepAlive) => "keep-alive expired",
        HubClose::Own(CloseReason::Memory) => "out of memory",
        HubClose::Own(CloseReason::Left) => "client disconnected",
        HubClose::Own(CloseReason::Window) => "receive window exceeded",
        HubClose::TargetFull => "a subscriber's session is full",
        HubClose::TakenOver => "client connected again",
        HubClose::PeerEnded => "connection ended by peer",
        HubClose::NoConnect => "no CONNECT in time",
        HubClose::TooManyMatches => "too many retained messages",
    }
}

// The reason of a refusal in words (3.2.2.3).
fn refusal_words(code: RefusalCode) -> &'static str
    ensures { result.now ≡ refusal_words code }
{
    match code {
        RefusalCode::UnacceptableProtocolVersion => "unacceptable protocol version",
        RefusalCode::IdentifierRejected => "identifier rejected",
        RefusalCode::ServerUnavailable => "server unavailable",
        RefusalCode::BadUserNameOrPassword => "bad user name or password",
        RefusalCode::NotAuthorized => "not authorized",
    }
}

// Writes the code of a close and its words.
fn write_close<W: fmt::Write>(f: &mut fmt::Formatter<W>, reason: HubClose) -> fmt::Result
    ensures { DisplaysOnOk W.write_str_gives f.old result (Some (close_text reason)) f.new }
{
    let (code, words) = (reason.code(), close_words(reason));
    write!(f, " code={code} reason=\"{words}\"")
}

// Writes the code of a refusal and its words.
fn write_refusal<W: fmt::Write>(f: &mut fmt::Formatter<W>, code: RefusalCode) -> fmt::Result
    ensures { DisplaysOnOk W.write_str_gives f.old result (Some (refusal_text code)) f.new }
{
    let (number, words) = (code.number(), refusal_words(code));
    write!(f, " code={number} reason=\"{words}\"")
}

impl fmt::Display for LogLine<'_> {
    ghost output = { λ line. Some (line_text line) };

    fn fmt<W: fmt::Write>(&self, f: &mut fmt::Formatter<W>) -> fmt::Result {
        match *self {
            LogLine::Connected { client, address } => {
                let (client, address) = (Escaped(client), Escaped(address));
                write!(f, "connected client={client} address={address}")
            }
            LogLine::ClosedEarly { address, reason } => {
                let address = Escaped(address);
                write!(f, "closed address={address}")?;
                write_close(f, reason)
            }
            LogLine::Closed { client, reason } => {
                let client = Escaped(client);
                write!(f, "closed client={client}")?;
                write_close(f, reason)
            }
            LogLine::SessionEnded { client } => {
                let client = Escaped(client);
                write!(f, "session-ended client={client}")
            }
            LogLine::Missed { client, messages } => {
                let client = Escaped(client);
                write!(f, "missed client={client} messages={messages}")
            }
            LogLine::Refused { address, code } => {
                let address = Escaped(address);
                write!(f, "refused address={address}")?;
                write_refusal(f, code)
            }
            LogLine::Slow { client, pending } => {
                let client = Escaped(client);
                write!(f, "slow client={client} pending={pending}")
            }
        }
    }
}

/// Appends a line of the log, with its line end.
pub fn write_log<W: Write>(output: &mut W, line: LogLine) -> io::Result<()>
    ensures { OnOk result (Appends (W.contents output.old) (W.contents output.new)
        (line_text line.entry ++ codes "\n")) }
{
    writeln!(output, "{line}")
}

/// The law of log lines: each has printing characters of ASCII only, and no line end before its
/// own. So no client can break a line or forge one.
pub fn log_laws()
    ensures { LogLaws }
{}
