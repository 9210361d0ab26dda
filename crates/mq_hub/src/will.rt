//! Publishing the will of a client (3.1.2.5).

pub(crate) mod delivery;
pub(crate) mod last_will;
