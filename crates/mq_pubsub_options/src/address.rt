//! Addresses of brokers.

ghost use Rattle.std.specs.Prelude.{◌≡◌, codes, option_map, string_bytes, IfOk};
ghost use Rattle.mq_pubsub_options.specs.Prelude.{first_value, found_of, IsLoginPart, first_of_three};

use crate::fault::OptionFault;
use crate::values::{owned, said};
use clap::ArgMatches;
use percent_encoding::percent_decode_str;
use std::alloc::{AllocError, Global};
use url::Url;

/// The port of a broker that has none.
const PORT: u16 = 1883;

/// The values of the environment, for options that are not given.
#[derive(Debug, Drop)]
pub struct Defaults {
    /// MQTT_HOST
    pub host: Option<String>,
    /// MQTT_PORT
    pub port: Option<String>,
    /// MQTT_USER
    pub user: Option<String>,
    /// MQTT_PASSWORD
    pub password: Option<String>,
}

/// The broker, the user, and the topic of `-L`. A password is never printed.
#[derive(Drop)]
pub struct Address {
    /// The name or the address of the broker.
    pub host: String,
    /// Its port.
    pub port: u16,
    /// The user name.
    pub user: Option<String>,
    /// The password.
    pub password: Option<String>,
    /// The topic of `-L`.
    pub topic: Option<String>,
}

// The parts of a URL.
#[derive(Drop)]
struct Parts<'a> {
    host: Option<String>,
    port: Option<u16>,
    user: Option<String>,
    password: Option<String>,
    topic: Option<&'a str>,
}

// The text of a part of a URL, without its escapes.
fn decoded(alloc: Global, text: &str) -> Result<Option<String>, AllocError> {
    if text.is_empty() {
        return Ok(None);
    }
    match percent_decode_str(text).decode_utf8(alloc) {
        Ok(text) => Ok(Some(text.into_owned(alloc)?)),
        Err(_) => Ok(None),
    }
}

// The text behind the host and the port of a URL. It is taken as it is, since `#` and `?` have no
// meaning in topics.
fn topic_in(text: &str) -> Option<&str> {
    let (_, rest) = text.split_once("://")?;
    let (_, topic) = rest.split_once('/')?;
    if topic.is_empty() {
        return None;
    }
    Some(topic)
}

// The parts of a URL with this topic.
fn parts_in<'a>(alloc: Global, url: &Url, topic: Option<&'a str>) -> Result<Parts<'a>, AllocError> {
    let host = decoded(alloc, url.host_str().unwrap_or(""))?;
    let user = decoded(alloc, url.username())?;
    let password = decoded(alloc, url.password().unwrap_or(""))?;
    Ok(Parts {
        host,
        port: url.port(),
        user,
        password,
        topic,
    })
}

// The parts of a URL of `-L`.
fn parts_of(alloc: Global, text: &str) -> Result<Parts<'_>, OptionFault> {
    let Ok(url) = Url::parse(alloc, text) else {
        return Err(said(
            alloc,
            "the URL after -L can't be read: write mqtt://[USER[:PASSWORD]@]HOST[:PORT]/TOPIC",
        ));
    };
    if url.scheme() != "mqtt" {
        return Err(said(
            alloc,
            "the URL after -L does not begin with mqtt://: other schemes, as mqtts, are not supported",
        ));
    }
    Ok(parts_in(alloc, &url, topic_in(text))?)
}

// The port in a text of the environment.
fn port_in(alloc: Global, text: &str) -> Result<u16, OptionFault> {
    match text.parse::<u16>() {
        Ok(port) if port > 0 => Ok(port),
        _ => Err(said(
            alloc,
            "MQTT_PORT is not a port: set it to a number from 1 to 65535, or unset it",
        )),
    }
}

// A text, if it is there.
fn shown(text: &Option<String>) -> Option<&str>
    ensures { option_map (λ text. text.now) result ≡ option_map string_bytes text.now }
{
    match text {
        Some(text) => Some(text.as_str()),
        None => None,
    }
}

// A copy of a text, if it is there.
fn copied(alloc: Global, text: Option<&str>) -> Result<Option<String>, AllocError>
    ensures { IfOk result
        (λ copy. option_map string_bytes copy ≡ option_map (λ text. text.now) text.entry) }
{
    match text {
        Some(text) => Ok(Some(String::from_str(alloc, text)?)),
        None => Ok(None),
    }
}

// A copy of the first of these that is there.
fn first(
    alloc: Global,
    option: Option<&str>,
    url: &Option<String>,
    default: &Option<String>,
) -> Result<Option<String>, AllocError>
    ensures { IfOk result (λ text. option_map string_bytes text ≡ first_of_three
        (option_map (λ text. text.now) option.entry)
        (option_map string_bytes url.now) (option_map string_bytes default.now)) }
{
    if option.is_some() {
        return copied(alloc, option);
    }
    if url.is_some() {
        return copied(alloc, shown(url));
    }
    copied(alloc, shown(default))
}

// The port of an option, of a URL or of the environment.
fn port_of(
    alloc: Global,
    matches: &ArgMatches<'_>,
    url: Option<u16>,
    default: &Option<String>,
) -> Result<u16, OptionFault> {
    let option: Option<u16> = matches.get_one("PORT");
    if let Some(port) = option {
        return Ok(port);
    }
    if let Some(port) = url {
        return Ok(port);
    }
    match default {
        Some(text) => port_in(alloc, text.as_str()),
        None => Ok(PORT),
    }
}

// The host without the brackets around an IPv6 address.
fn unbracketed(host: &str) -> &str {
    match host.strip_prefix('[') {
        Some(rest) => rest.strip_suffix(']').unwrap_or(host),
        None => host,
    }
}

// The host of an option, of a URL or of the environment.
fn host_of(
    alloc: Global,
    matches: &ArgMatches<'_>,
    url: &Option<String>,
    default: &Option<String>,
) -> Result<String, AllocError> {
    let host = matches.get_str("HOST").or(shown(url)).or(shown(default));
    String::from_str(alloc, unbracketed(host.unwrap_or("localhost")))
}

// The address in the options, a URL and the environment.
fn address_in(
    alloc: Global,
    matches: &ArgMatches<'_>,
    parts: &Parts<'_>,
    defaults: &Defaults,
) -> Result<Address, OptionFault>
    ensures user { IfOk result (λ address. option_map string_bytes address.user ≡ first_of_three
        (first_value (found_of matches.now) (codes "USER"))
        (option_map string_bytes parts.now.user) (option_map string_bytes defaults.now.user)) }
    ensures password { IfOk result
        (λ address. option_map string_bytes address.password ≡ first_of_three
        (first_value (found_of matches.now) (codes "PASSWORD"))
        (option_map string_bytes parts.now.password)
        (option_map string_bytes defaults.now.password)) }
{
    let port = port_of(alloc, matches, parts.port, &defaults.port)?;
    let host = host_of(alloc, matches, &parts.host, &defaults.host)?;
    let topic = copied(alloc, parts.topic)?;
    let user = first(alloc, matches.get_str("USER"), &parts.user, &defaults.user)?;
    let password = first(
        alloc,
        matches.get_str("PASSWORD"),
        &parts.password,
        &defaults.password,
    )?;
    Ok(Address {
        host,
        port,
        user,
        password,
        topic,
    })
}

/// The address in the options and the environment.
pub(crate) fn address_of(
    alloc: Global,
    matches: &ArgMatches<'_>,
    defaults: &Defaults,
) -> Result<Address, OptionFault>
    ensures user { IfOk result (λ address. IsLoginPart (found_of matches.now) (codes "USER")
        (option_map string_bytes defaults.now.user) (option_map string_bytes address.user)) }
    ensures password { IfOk result (λ address. IsLoginPart (found_of matches.now)
        (codes "PASSWORD") (option_map string_bytes defaults.now.password)
        (option_map string_bytes address.password)) }
{
    if let Some(text) = matches.get_str("URL") {
        let parts = parts_of(alloc, text)?;
        return address_in(alloc, matches, &parts, defaults);
    }
    let none = Parts {
        host: None,
        port: None,
        user: None,
        password: None,
        topic: None,
    };
    address_in(alloc, matches, &none, defaults)
}
