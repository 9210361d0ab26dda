//! Taking a CONNECT: checks, refusal, new and resumed sessions, take-over (3.1, 3.2).

pub(crate) mod accept;
pub(crate) mod availability;
pub(crate) mod check;
pub(crate) mod first_packet;
pub(crate) mod new_session;
pub(crate) mod refuse;
pub(crate) mod resume;
pub(crate) mod take_over;
pub(crate) mod take_over_resume;
