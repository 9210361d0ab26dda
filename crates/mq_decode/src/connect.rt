//! CONNECT (3.1).

ghost use Rattle.std.specs.Prelude.{◌≡◌, true, None, Some, IfOk, IsOk, MatchOption};
ghost use Rattle.mq_topic.specs.Topic.{is_topic_name};
ghost use Rattle.mq_decode.specs.Inside.Gives.{Same};
ghost use Rattle.mq_decode.specs.Lent.{connect_in};
ghost use Rattle.mq_decode.specs.Views.{connect_of};
ghost use Rattle.mq_decode.specs.Connects.{flags_at, protocol_at, level_at, will_at, password_at, login_at, connect_at, is_protocol};

use crate::fault::{BadField, FaultKind};
use crate::fields::{BinaryView, bad_at, binary, end, name, number, text};
use crate::flags::{ConnectFlags, WillFlags, flags_from};
use mq_packet::{BoxedConnect, Connect, Login, Will};
use mq_topic::{Qos, TopicName};
use mq_wire::TextRef;
use std::alloc::{AllocError, Global};
use std::marker::Model;

/// The will of a borrowed CONNECT (3.1.3.2, 3.1.3.3).
#[derive(Debug, Drop)]
pub struct WillView<'a> {
    topic: TextRef<'a>,
    message: BinaryView<'a>,
    qos: Qos,
    retain: bool,
}

impl<'a> Model for WillView<'a> {
    ghost use Rattle.std.specs.Prelude.{◌≡◌, true};
    ghost use Rattle.mq_topic.specs.Topic.{is_topic_name};
    ghost use Rattle.mq_packet.specs.declared.connect.Will.{Will};

    ghost Value = { Will };

    ghost view = { λ w. record { topic = w.topic; message = w.message; qos = w.qos; retain = w.retain } };

    ghost invariant = { λ w. is_topic_name w.topic ≡ true };
}

impl<'a> WillView<'a> {
    /// The topic to publish it to.
    pub fn topic(&self) -> &'a str
        ensures value { result.now ≡ self.now.topic }
        ensures name { is_topic_name self.now.topic ≡ true }
    {
        self.topic.as_str()
    }

    /// The payload.
    pub fn message(&self) -> &'a [u8]
        ensures { result.now ≡ self.now.message }
    {
        self.message.as_slice()
    }

    /// The quality of service to publish it with.
    pub fn qos(&self) -> Qos
        ensures { result ≡ self.now.qos }
    {
        self.qos
    }

    /// RETAIN of the message.
    pub fn retain(&self) -> bool
        ensures { result ≡ self.now.retain }
    {
        self.retain
    }

    // A will of its own.
    fn owned(&self, alloc: Global) -> Result<Will, AllocError>
        ensures { IfOk result (λ w. w ≡ self.now) }
    {
        let topic = TopicName::from_text(self.topic.to_text(alloc)?);
        let message = self.message.owned(alloc)?;
        Ok(Will {
            topic,
            message,
            qos: self.qos,
            retain: self.retain,
        })
    }
}

/// The user name and password of a borrowed CONNECT (3.1.3.4, 3.1.3.5).
#[derive(Debug, Drop)]
pub struct LoginView<'a> {
    name: TextRef<'a>,
    password: Option<BinaryView<'a>>,
}

impl<'a> Model for LoginView<'a> {
    ghost use Rattle.mq_packet.specs.declared.connect.Login.{Login};

    ghost Value = { Login };

    ghost view = { λ l. record { name = l.name; password = l.password } };
}

impl<'a> LoginView<'a> {
    /// The user name.
    pub fn name(&self) -> &'a str
        ensures { result.now ≡ self.now.name }
    {
        self.name.as_str()
    }

    /// The password, if there is one.
    pub fn password(&self) -> Option<&'a [u8]>
        ensures { MatchOption result (self.now.password ≡ None)
            (λ b. self.now.password ≡ Some b.now) }
    {
        match &self.password {
            Some(password) => Some(password.as_slice()),
            None => None,
        }
    }

    // A login of its own.
    fn owned(&self, alloc: Global) -> Result<Login, AllocError>
        ensures { IfOk result (λ l. l ≡ self.now) }
    {
        let name = self.name.to_text(alloc)?;
        let password = match &self.password {
            Some(password) => Some(password.owned(alloc)?),
            None => None,
        };
        Ok(Login { name, password })
    }
}

/// The fields of a borrowed CONNECT (3.1).
#[derive(Debug, Drop)]
pub struct ConnectFields<'a> {
    /// The client identifier (3.1.3.1), any text.
    pub client_id: TextRef<'a>,
    /// Clean session (3.1.2.4).
    pub clean_session: bool,
    /// Keep-alive in seconds (3.1.2.10), 0 for none.
    pub keep_alive: u16,
    /// The message that is published when the connection ends without a DISCONNECT (3.1.2.5).
    pub will: Option<WillView<'a>>,
    /// User name and password (3.1.3.4, 3.1.3.5).
    pub login: Option<LoginView<'a>>,
}

impl<'a> ConnectFields<'a> {
    // A CONNECT of its own.
    fn owned(&self, alloc: Global) -> Result<Connect, AllocError>
        ensures { IfOk result (λ c. c ≡ connect_of self.now) }
    {
        let client_id = self.client_id.to_text(alloc)?;
        let will = match &self.will {
            Some(will) => Some(will.owned(alloc)?),
            None => None,
        };
        let login = match &self.login {
            Some(login) => Some(login.owned(alloc)?),
            None => None,
        };
        Ok(Connect {
            client_id,
            clean_session: self.clean_session,
            keep_alive: self.keep_alive,
            will,
            login,
        })
    }
}

/// A valid CONNECT that is borrowed from a buffer (3.1).
#[derive(Debug, Drop)]
pub struct ConnectView<'a> {
    // All its fields.
    bytes: &'a [u8],
}

impl<'a> Model for ConnectView<'a> {
    ghost use Rattle.std.specs.Prelude.{IsOk};
    ghost use Rattle.mq_packet.specs.declared.connect.Connect.{Connect};
    ghost use Rattle.mq_decode.specs.Connects.{connect_at};
    ghost use Rattle.mq_decode.specs.Lent.{connect_in};

    ghost Value = { Connect };

    ghost view = { λ c. connect_in (connect_at c.bytes.now) };

    ghost invariant = { λ c. IsOk (connect_at c.bytes.now) };
}

impl<'a> ConnectView<'a> {
    /// Its fields, which are read once more.
    pub fn fields(&self) -> ConnectFields<'a>
        ensures { connect_of result ≡ self.now }
    {
        match connect_fields(self.bytes) {
            Ok(fields) => fields,
            Err(_) => unreachable!(),
        }
    }

    // A CONNECT of its own, behind a box.
    pub(crate) fn owned(&self, alloc: Global) -> Result<BoxedConnect, AllocError>
        ensures { IfOk result (λ c. c ≡ self.now) }
    {
        let connect = self.fields().owned(alloc)?;
        BoxedConnect::new(alloc, connect)
    }
}

fn is_protocol(name: &str) -> bool
    ensures { result ≡ is_protocol name.now }
{
    matches!(name.as_bytes(), [b'M', b'Q', b'T', b'T'])
}

#[tactic(auto, unfolding(crate::specs::Connects::protocol_at))]
fn protocol(bytes: &[u8]) -> Result<&[u8], BadField>
    ensures { Same (λ x. x.now) result (protocol_at bytes.now) }
{
    match text(bytes) {
        Ok((name, rest)) => {
            if !is_protocol(name.as_str()) {
                return bad_at(FaultKind::ProtocolName, bytes);
            }
            Ok(rest)
        }
        Err(bad) => Err(bad),
    }
}

fn level(bytes: &[u8]) -> Result<&[u8], BadField>
    ensures { Same (λ x. x.now) result (level_at bytes.now) }
{
    match bytes {
        [] => bad_at(FaultKind::PastEnd, bytes),
        [4, rest @ ..] => Ok(rest),
        [_, ..] => bad_at(FaultKind::ProtocolLevel, bytes),
    }
}

#[tactic(auto, unfolding(crate::specs::Connects::flags_at))]
fn flags(bytes: &[u8]) -> Result<(ConnectFlags, &[u8]), BadField>
    ensures { Same (λ x. (x.0, x.1.now)) result (flags_at bytes.now) }
{
    let Some((byte, rest)) = bytes.split_first() else {
        return bad_at(FaultKind::PastEnd, bytes);
    };
    match flags_from(*byte) {
        Some(flags) => Ok((flags, rest)),
        None => bad_at(FaultKind::ForbiddenFlags, bytes),
    }
}

#[tactic(auto, unfolding(crate::specs::Connects::will_at))]
fn will(flags: Option<WillFlags>, bytes: &[u8]) -> Result<(Option<WillView<'_>>, &[u8]), BadField>
    ensures { Same (λ x. (x.0, x.1.now)) result (will_at flags bytes.now) }
{
    let Some(flags) = flags else {
        return Ok((None, bytes));
    };
    let (topic, rest) = match name(bytes) {
        Ok(field) => field,
        Err(bad) => return Err(bad),
    };
    let (message, rest) = match binary(rest) {
        Ok(field) => field,
        Err(bad) => return Err(bad),
    };
    let will = WillView {
        topic,
        message,
        qos: flags.qos,
        retain: flags.retain,
    };
    Ok((Some(will), rest))
}

#[tactic(auto, unfolding(crate::specs::Connects::password_at))]
fn password(has_password: bool, bytes: &[u8]) -> Result<(Option<BinaryView<'_>>, &[u8]), BadField>
    ensures { Same (λ x. (x.0, x.1.now)) result (password_at has_password bytes.now) }
{
    if !has_password {
        return Ok((None, bytes));
    }
    match binary(bytes) {
        Ok((password, rest)) => Ok((Some(password), rest)),
        Err(bad) => Err(bad),
    }
}

#[tactic(auto, unfolding(crate::specs::Connects::login_at))]
fn login(
    has_password: Option<bool>,
    bytes: &[u8],
) -> Result<(Option<LoginView<'_>>, &[u8]), BadField>
    ensures { Same (λ x. (x.0, x.1.now)) result (login_at has_password bytes.now) }
{
    let Some(has_password) = has_password else {
        return Ok((None, bytes));
    };
    let (name, rest) = match text(bytes) {
        Ok(field) => field,
        Err(bad) => return Err(bad),
    };
    match password(has_password, rest) {
        Ok((password, rest)) => Ok((Some(LoginView { name, password }), rest)),
        Err(bad) => Err(bad),
    }
}

// All fields of a CONNECT.
#[tactic(auto, unfolding(crate::specs::Connects::connect_at))]
fn connect_fields(bytes: &[u8]) -> Result<ConnectFields<'_>, BadField>
    ensures { Same connect_of result (connect_at bytes.now) }
{
    let rest = protocol(bytes)?;
    let rest = level(rest)?;
    let (flags, rest) = flags(rest)?;
    let (keep_alive, rest) = number(rest)?;
    let (client_id, rest) = match text(rest) {
        Ok(field) => field,
        Err(bad) => return Err(bad),
    };
    let (will, rest) = match will(flags.will, rest) {
        Ok(field) => field,
        Err(bad) => return Err(bad),
    };
    let (login, rest) = match login(flags.password, rest) {
        Ok(field) => field,
        Err(bad) => return Err(bad),
    };
    end(rest)?;
    Ok(ConnectFields {
        client_id,
        clean_session: flags.clean_session,
        keep_alive,
        will,
        login,
    })
}

/// A CONNECT whose fields are all of these bytes.
pub(crate) fn connect(bytes: &[u8]) -> Result<ConnectView<'_>, BadField>
    ensures { Same (λ c. c) result (connect_at bytes.now) }
{
    match connect_fields(bytes) {
        Ok(_) => Ok(ConnectView { bytes }),
        Err(bad) => Err(bad),
    }
}
