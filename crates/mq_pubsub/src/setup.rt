//! Configurations from which clients are made.

ghost use Rattle.std.specs.Prelude.{◌≡◌, None, IfErr, IfOk};
ghost use Rattle.mq_pubsub.specs.Prelude.{strict, blank_end, CanGoOn, GoesOn, config_of, greatest_length};
ghost use Rattle.mq_flow.specs.declared.saved.Saved as value;

use mq_decode::Limits;
use mq_end::{ClientConfig, ClientEnd};
use mq_flow::{LoadError, Saved};
use mq_packet::{Login, Will};
use mq_wire::Text;
use std::alloc::{AllocError, Global};

/// The maximum number of packet identifiers in use, for a new session (2.3.1).
const CAPACITY: u16 = 100;

/// The maximum remaining length of packets (2.2.3).
const MOST_PACKET: u32 = 268_435_455;

/// A configuration from which clients are made, one for each session.
#[derive(Debug, Drop)]
pub struct Setup {
    /// The client identifier (3.1.3.1).
    pub id: Text,
    /// Keep-alive in seconds (3.1.2.10), 0 for none.
    pub keep_alive: u16,
    /// The will (3.1.2.5).
    pub will: Option<Will>,
    /// User name and password (3.1.3.4, 3.1.3.5).
    pub login: Option<Login>,
}

impl Setup {
    /// The bound on the remaining length of packets: that of the standard (2.2.3).
    pub fn limits() -> Limits
        ensures { result ≡ strict greatest_length }
    {
        Limits::new(MOST_PACKET).unwrap()
    }

    // The configuration of a client.
    fn config(&self) -> Result<ClientConfig, AllocError>
        ensures { IfOk result (λ config. config ≡ config_of self.now) }
    {
        Ok(ClientConfig {
            id: self.id.clone()?,
            keep_alive: self.keep_alive,
            will: self.will.clone()?,
            login: self.login.clone()?,
            limits: Setup::limits(),
            capacity: CAPACITY,
            window: None,
        })
    }

    /// A client without a session.
    pub fn client(&self, alloc: Global) -> Result<ClientEnd, AllocError>
        ensures config { IfOk result (λ client. client.config ≡ config_of self.now) }
        ensures end { IfOk result (λ client. client.link.end ≡ blank_end None) }
    {
        Ok(ClientEnd::new(alloc, self.config()?))
    }

    /// A client with the session that `bytes` are the saved form of (4.1).
    pub fn saved_client(&self, alloc: Global, bytes: &[u8]) -> Result<ClientEnd, LoadError>
        ensures ok { IfOk result (GoesOn self.now bytes.now) }
        ensures loads { (saved : value.Saved) → CanGoOn self.now bytes.now saved
            → IfErr result (λ why. why ≡ LoadError.Memory) }
    {
        let saved = Saved::load(alloc, bytes)?;
        match self.config() {
            Ok(config) => ClientEnd::with_saved(alloc, config, saved),
            Err(_) => Err(LoadError::Memory),
        }
    }
}
