//! The options that both commands have.

ghost use Rattle.std.specs.Prelude.{◌≡◌, codes, option_map, string_bytes, IfOk};
ghost use Rattle.mq_pubsub_options.specs.Prelude.{first_value, found_of, one_text, IsCommon, IsLongestWait, IsNumberOr, IsWillOf};

use crate::address::{Address, Defaults, address_of};
use crate::fault::OptionFault;
use crate::values::{duration_of, flag_of, name_of, owned, qos_of, said};
use clap::ArgMatches;
use mq_topic::{Qos, TopicName};
use std::alloc::{AllocError, Global};

/// The longest wait before a new connection without `--retry`, in milliseconds.
const LONGEST_WAIT: u64 = 30_000;

/// Keep-alive without `-k`, in seconds.
const KEEP_ALIVE: u16 = 60;

/// The will.
#[derive(Debug, Drop)]
pub struct WillOptions {
    /// Its topic.
    pub topic: TopicName,
    /// Its payload.
    pub payload: String,
    /// Its quality of service.
    pub qos: Qos,
    /// The broker retains it.
    pub retain: bool,
}

/// The options that both commands have.
#[derive(Drop)]
pub struct Common {
    /// The broker and the user.
    pub address: Address,
    /// The name of the file whose first line is the password.
    pub password_file: Option<String>,
    /// The client identifier; `None` makes one up.
    pub id: Option<String>,
    /// The session is kept at the broker after the end.
    pub keeps: bool,
    /// The name of the file with the session.
    pub session: Option<String>,
    /// Keep-alive in seconds, 0 for none.
    pub keep_alive: u16,
    /// The will.
    pub will: Option<WillOptions>,
    /// The quality of service.
    pub qos: Qos,
    /// Each packet is printed.
    pub debug: bool,
    /// No errors are printed.
    pub quiet: bool,
    /// The time after which the run ends, in milliseconds.
    pub timeout: Option<u64>,
    /// The longest wait before a new connection, in milliseconds; `None` makes no new connection.
    pub longest_wait: Option<u64>,
}

// The will in the options.
fn will_of(alloc: Global, matches: &ArgMatches<'_>) -> Result<Option<WillOptions>, OptionFault>
    ensures { IfOk result (IsWillOf (found_of matches.now)) }
{
    let Some(topic) = matches.get_str("WILL_TOPIC") else {
        if matches.contains_id("WILL_PAYLOAD") || matches.get_flag("WILL_RETAIN") {
            return Err(said(
                alloc,
                "a will has no topic: give --will-topic, or leave the other options of the will out",
            ));
        }
        return Ok(None);
    };
    let payload = match owned(alloc, matches, "WILL_PAYLOAD")? {
        Some(payload) => payload,
        None => String::new(alloc),
    };
    if payload.len() > 65_535 {
        return Err(said(
            alloc,
            "the payload after --will-payload has more than 65,535 bytes: give a shorter one",
        ));
    }
    Ok(Some(WillOptions {
        topic: name_of(alloc, "--will-topic", topic)?,
        payload,
        qos: qos_of(matches, "WILL_QOS"),
        retain: flag_of(matches, "WILL_RETAIN"),
    }))
}

// The longest wait before a new connection.
fn longest_wait_of(alloc: Global, matches: &ArgMatches<'_>) -> Result<Option<u64>, OptionFault>
    ensures { IfOk result (IsLongestWait (first_value (found_of matches.now) (codes "RETRY"))) }
{
    match matches.get_str("RETRY") {
        None => Ok(Some(LONGEST_WAIT)),
        Some("never") => Ok(None),
        Some(_) => duration_of(alloc, matches, "RETRY", "--retry"),
    }
}

// The keep-alive in seconds.
fn keep_alive_of(matches: &ArgMatches<'_>) -> u16
    ensures { IsNumberOr 60 16 (one_text (found_of matches.now) (codes "KEEP_ALIVE")) result }
{
    let keep_alive: Option<u16> = matches.get_one("KEEP_ALIVE");
    keep_alive.unwrap_or(KEEP_ALIVE)
}

// The options with names.
#[derive(Drop)]
struct Names {
    password_file: Option<String>,
    id: Option<String>,
    session: Option<String>,
}

fn names_of(alloc: Global, matches: &ArgMatches<'_>) -> Result<Names, AllocError>
    ensures password_file { IfOk result (λ names. option_map string_bytes names.password_file
        ≡ first_value (found_of matches.now) (codes "PASSWORD_FILE")) }
    ensures id { IfOk result (λ names. option_map string_bytes names.id
        ≡ first_value (found_of matches.now) (codes "ID")) }
    ensures session { IfOk result (λ names. option_map string_bytes names.session
        ≡ first_value (found_of matches.now) (codes "SESSION")) }
{
    let password_file = owned(alloc, matches, "PASSWORD_FILE")?;
    let id = owned(alloc, matches, "ID")?;
    let session = owned(alloc, matches, "SESSION")?;
    Ok(Names {
        password_file,
        id,
        session,
    })
}

/// The options that both commands have.
pub(crate) fn common_of(
    alloc: Global,
    matches: &ArgMatches<'_>,
    defaults: &Defaults,
) -> Result<Common, OptionFault>
    ensures { IfOk result (IsCommon (found_of matches.now)) }
{
    let timeout = duration_of(alloc, matches, "TIMEOUT", "-W")?;
    let longest_wait = longest_wait_of(alloc, matches)?;
    let address = address_of(alloc, matches, defaults)?;
    let will = will_of(alloc, matches)?;
    let Names {
        password_file,
        id,
        session,
    } = names_of(alloc, matches)?;
    Ok(Common {
        address,
        password_file,
        id,
        keeps: session.is_some() || flag_of(matches, "KEEP"),
        session,
        keep_alive: keep_alive_of(matches),
        will,
        qos: qos_of(matches, "QOS"),
        debug: flag_of(matches, "DEBUG"),
        quiet: flag_of(matches, "QUIET"),
        timeout,
        longest_wait,
    })
}
