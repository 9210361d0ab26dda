//! The exported functions of the static library `libposkvari`, for C and for languages that call C.
//! The header `poskvari.h` declares them and states the duties of a caller.
//!
//! A slice is a pointer and a number of bytes. A `Global` takes no argument. Each function passes
//! its arguments to one of `mq_bytes` or `mq_embedded`, and returns a number. Only the functions
//! with a `Global` allocate.
#![tactic(auto)]

mod client;
mod codes;
mod exports;
mod handle;
mod raw_box;

pub use crate::client::{
    poskvari_client_connect, poskvari_client_disconnect, poskvari_client_dropped,
    poskvari_client_free, poskvari_client_is_idle, poskvari_client_new,
    poskvari_client_next_deadline, poskvari_client_next_event, poskvari_client_output,
    poskvari_client_publish, poskvari_client_receive, poskvari_client_save,
    poskvari_client_subscribe, poskvari_client_tick, poskvari_client_unsubscribe,
};
pub use crate::exports::{
    Fault, poskvari_encode_acknowledgement, poskvari_encode_bare, poskvari_encode_connack,
    poskvari_encode_connect, poskvari_encode_list, poskvari_encode_publish, poskvari_filter_check,
    poskvari_match, poskvari_name_check, poskvari_packet, poskvari_session_check,
};
pub use crate::handle::Handle;
