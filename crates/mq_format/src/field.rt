//! The fields of a format.

ghost use Rattle.std.specs.Prelude.{◌≡◌};

/// How a field is laid out.
#[derive(Clone, Copy, Debug, PartialEq, Eq)]
pub struct Layout {
    /// The minimum number of bytes.
    pub width: usize,
    /// The text is at the left of that width.
    pub is_left: bool,
    /// Numbers and payloads are padded with zeros.
    pub is_zero: bool,
    /// The maximum number of bytes of a text.
    pub precision: Option<usize>,
}

/// A field of a format.
#[derive(Clone, Copy, Debug, PartialEq, Eq)]
pub enum Field {
    /// `%%`
    Percent,
    /// `%t`: the topic
    Topic,
    /// `%p`: the payload
    Payload,
    /// `%x`, and `%X` in upper case: the payload in hexadecimal digits
    Hexadecimal(bool),
    /// `%q`: the quality of service
    Qos,
    /// `%r`: whether the message was retained, 0 or 1
    Retain,
    /// `%l`: the length of the payload
    Length,
    /// `%m`: the packet identifier, 0 if there is none
    Id,
    /// `%I`: the date and the time of day
    Time,
    /// `%U`: the seconds since 1970
    Unix,
    /// `%j`: the message in JSON
    Json,
    /// A field of MQTT 5, which is empty in MQTT 3.1.1
    Nothing,
}
