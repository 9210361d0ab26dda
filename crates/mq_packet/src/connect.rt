//! CONNECT (3.1).

ghost use Rattle.std.specs.Prelude.{◌≡◌, IfOk};

use crate::binary::{Binary, Payload};
use crate::message::Message;
use mq_topic::{Qos, TopicName};
use mq_wire::Text;
use std::alloc::{AllocError, Global};
use std::marker::Model;

/// CONNECT (3.1): the first packet of a client.
#[derive(Debug, Drop)]
pub struct Connect {
    /// The client identifier (3.1.3.1), which may be empty.
    pub client_id: Text,
    /// Clean session (3.1.2.4): discards the previous session; the new one ends with the
    /// connection.
    pub clean_session: bool,
    /// Keep-alive in seconds (3.1.2.10); 0 turns it off.
    pub keep_alive: u16,
    /// The message to publish if the connection ends without a DISCONNECT (3.1.2.5).
    pub will: Option<Will>,
    /// User name and password (3.1.3.4, 3.1.3.5).
    pub login: Option<Login>,
}

/// The will of a CONNECT (3.1.2.5 to 3.1.2.7, 3.1.3.2, 3.1.3.3).
#[derive(Debug, Drop)]
pub struct Will {
    /// The topic to publish it to.
    pub topic: TopicName,
    /// The payload.
    pub message: Binary,
    /// The quality of service to publish it with.
    pub qos: Qos,
    /// Whether the server retains it.
    pub retain: bool,
}

impl Will {
    /// Returns the message to publish (3.1.2.5), which shares the payload.
    pub fn message(&self) -> Result<Message, AllocError>
        ensures { IfOk result (λ m. m ≡ record {
          topic = self.now.topic;
          payload = self.now.message;
          qos = self.now.qos;
          retain = self.now.retain;
        }) }
    {
        let topic = self.topic.clone()?;
        let payload = self.message.as_bytes().clone()?;
        let (qos, retain) = (self.qos, self.retain);
        Ok(Message {
            topic,
            payload: Payload::new(payload).unwrap(),
            qos,
            retain,
        })
    }
}

/// A user name with an optional password (3.1.3.4, 3.1.3.5).
#[derive(Debug, Drop)]
pub struct Login {
    /// The user name.
    pub name: Text,
    /// The password, arbitrary bytes.
    pub password: Option<Binary>,
}

/// A CONNECT in a box, which keeps [`Packet`](crate::Packet) small.
#[derive(Debug, Drop)]
pub struct BoxedConnect {
    connect: Box<Connect>,
}

impl Model for BoxedConnect {
    ghost use Rattle.mq_packet.specs.declared.connect.Connect.{Connect};

    ghost Value = { Connect };

    ghost view = { λ b. b.connect.value };
}

impl BoxedConnect {
    /// Moves a CONNECT into a box.
    pub fn new(alloc: Global, connect: Connect) -> Result<BoxedConnect, AllocError>
        ensures { IfOk result (λ b. b ≡ connect) }
    {
        let connect = Box::new(alloc, connect)?;
        Ok(BoxedConnect { connect })
    }

    /// The CONNECT.
    pub fn as_connect(&self) -> &Connect
        ensures { result.now ≡ self.now }
    {
        &self.connect
    }

    /// Consumes the box and returns the CONNECT.
    pub fn into_connect(self) -> Connect
        ensures { result ≡ self }
    {
        let BoxedConnect { connect } = self;
        Box::into_inner(connect)
    }
}

impl Clone for BoxedConnect {
    ghost is_clone = { λ boxed copy. copy ≡ boxed };

    /// Returns another owner of the same bytes, in a new box.
    fn clone(&self) -> Result<BoxedConnect, AllocError> {
        let connect = self.connect.clone()?;
        Ok(BoxedConnect { connect })
    }
}

impl Clone for Connect {
    ghost is_clone = { λ connect copy. copy ≡ connect };

    /// Returns another owner of the same bytes.
    fn clone(&self) -> Result<Connect, AllocError> {
        Ok(Connect {
            client_id: self.client_id.clone()?,
            clean_session: self.clean_session,
            keep_alive: self.keep_alive,
            will: self.will.clone()?,
            login: self.login.clone()?,
        })
    }
}

impl Clone for Will {
    ghost is_clone = { λ will copy. copy ≡ will };

    /// Returns another owner of the same bytes.
    fn clone(&self) -> Result<Will, AllocError> {
        Ok(Will {
            topic: self.topic.clone()?,
            message: self.message.clone()?,
            qos: self.qos,
            retain: self.retain,
        })
    }
}

impl Clone for Login {
    ghost is_clone = { λ login copy. copy ≡ login };

    /// Returns another owner of the same bytes.
    fn clone(&self) -> Result<Login, AllocError> {
        Ok(Login {
            name: self.name.clone()?,
            password: self.password.clone()?,
        })
    }
}
