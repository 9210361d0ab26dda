//! The data representations of MQTT: the remaining length of one to four bytes (2.2.3), two-byte
//! integers in big-endian order (1.5.2), and UTF-8 strings with a two-byte length (1.5.3). A call
//! that may allocate says so in its return type; other calls never allocate. On `Err` the receiver
//! is unchanged unless stated otherwise.
#![tactic(auto)]

mod length;
mod length_reading;
mod number;
mod ord;
mod text;

pub use crate::length::{VarFault, VarStep, VarlenReader, put_varlen, varlen_len};
pub use crate::length_reading::{LengthReading, length_at, length_laws, loose_length_at};
pub use crate::number::{number_at, number_laws, put_number};
pub use crate::text::{FieldFault, Text, TextFault, TextRef, text_at, text_laws};
