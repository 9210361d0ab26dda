//! Saving and loading a broker, with its connections (3.1.2.4, 4.1, 4.2).

pub(crate) mod connections;
pub(crate) mod limits;
pub(crate) mod load;
pub(crate) mod retained;
pub(crate) mod save;
pub(crate) mod sessions;
