//! Taking a PUBLISH and delivering its message to subscribers (3.3, 4.3).

pub(crate) mod acceptance;
pub(crate) mod delivery;
pub(crate) mod enqueue;
pub(crate) mod on_publish;
pub(crate) mod queued_answer;
pub(crate) mod reception;
pub(crate) mod reserve;
pub(crate) mod settle;
pub(crate) mod shared_copies;
