//! The client of a program that ended, made anew from the session that was saved.

ghost use Rattle.std.specs.Prelude.{◌≡◌, ◌<◌, false, IfOk, IfErr, IfSome};
ghost use Rattle.mq_world.specs.Prelude.{resumed, connect_of, FitsWithin, kept_session, AreWithin, first_packet};

use mq_decode::Limits;
use mq_end::{ClientConfig, ClientEnd};
use mq_flow::{LoadError, Saved};
use mq_wire::Text;
use std::alloc::{AllocError, Global};

/// The configuration of both ends of a world.
#[derive(Clone, Copy)]
pub(crate) struct Terms {
    pub(crate) limits: Limits,
    pub(crate) capacity: u16,
    pub(crate) window: Option<u16>,
}

pub(crate) fn client_config(alloc: Global, terms: Terms) -> Result<ClientConfig, AllocError>
    ensures connect { IfOk result (λ config. connect_of config false ≡ first_packet) }
    ensures limits { IfOk result (λ config. config.limits ≡ terms.limits) }
    ensures capacity { IfOk result (λ config. config.capacity ≡ terms.capacity) }
    ensures window { IfOk result (λ config. config.window ≡ terms.window) }
{
    let Ok(id) = Text::new(alloc, "w") else {
        return Err(AllocError);
    };
    Ok(ClientConfig {
        id,
        keep_alive: 60,
        will: None,
        login: None,
        limits: terms.limits,
        capacity: terms.capacity,
        window: terms.window,
    })
}

/// Saves the session of a client without a connection, loads it, and continues with it (3.1.2.4,
/// 4.1).
pub(crate) fn made_anew(
    alloc: Global,
    client: &ClientEnd,
    config: ClientConfig,
) -> Result<ClientEnd, LoadError>
    requires id { config.id ≡ client.now.config.id }
    requires window { IfSome config.window (λ window. 0 < window) }
    requires saves { AreWithin 268435455 client.now.link.end.book.entries }
    requires loads { FitsWithin config.limits.most (kept_session client.now.link) }
    ensures memory { IfErr result (λ why. why ≡ LoadError.Memory) }
    ensures end { IfOk result (λ made. made.link.end ≡ resumed config.window client.now.link.end.known client.now.link.end.book
        client.now.link.end.received client.now.link.end.last) }
    ensures capacity { IfOk result (λ made. made.link.capacity ≡ client.now.link.capacity) }
    ensures limit { IfOk result (λ made. made.link.limit ≡ config.limits) }
    ensures config { IfOk result (λ made. made.config ≡ config) }
{
    let _id = config.id.as_str();
    let mut bytes = Vec::new(alloc);
    if client.save(&mut bytes).is_err() {
        return Err(LoadError::Memory);
    }
    let saved = Saved::load(alloc, bytes.as_slice())?;
    ClientEnd::with_saved(alloc, config, saved)
}
