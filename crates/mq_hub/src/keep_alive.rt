//! Ticks: closing late connections, and removing sessions of absent clients (3.1.2.4, 3.1.2.10).

pub(crate) mod expiry;
pub(crate) mod on_tick;
