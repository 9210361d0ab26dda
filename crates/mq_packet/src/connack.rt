//! CONNACK (3.2).

ghost use Rattle.std.specs.Prelude.{◌≡◌};
ghost use Rattle.mq_packet.specs.Prelude.{refusal_number, refusal_from};

/// CONNACK (3.2): the server's response to CONNECT.
#[derive(Clone, Copy, Debug, PartialEq, Eq)]
pub enum ConnAck {
    /// The connection is accepted.
    Accepted {
        /// Session Present (3.2.2.2): the server had stored a session for this client.
        session_present: bool,
    },
    /// The connection is refused.
    Refused(RefusalCode),
}

/// Why a connection is refused (3.2.2.3).
#[derive(Clone, Copy, Debug, PartialEq, Eq)]
pub enum RefusalCode {
    /// The server does not know this level of the protocol.
    UnacceptableProtocolVersion,
    /// The server does not allow this client identifier.
    IdentifierRejected,
    /// The server is not available.
    ServerUnavailable,
    /// The user name or the password is wrong.
    BadUserNameOrPassword,
    /// The client may not connect.
    NotAuthorized,
}

impl RefusalCode {
    /// The return code, 1 to 5.
    pub fn number(self) -> u8
        ensures { result ≡ refusal_number self }
    {
        match self {
            RefusalCode::UnacceptableProtocolVersion => 1,
            RefusalCode::IdentifierRejected => 2,
            RefusalCode::ServerUnavailable => 3,
            RefusalCode::BadUserNameOrPassword => 4,
            RefusalCode::NotAuthorized => 5,
        }
    }

    /// The refusal with this return code, or `None` for 0 and for numbers over 5.
    pub fn from_number(number: u8) -> Option<RefusalCode>
        ensures { result ≡ refusal_from number }
    {
        match number {
            1 => Some(RefusalCode::UnacceptableProtocolVersion),
            2 => Some(RefusalCode::IdentifierRejected),
            3 => Some(RefusalCode::ServerUnavailable),
            4 => Some(RefusalCode::BadUserNameOrPassword),
            5 => Some(RefusalCode::NotAuthorized),
            _ => None,
        }
    }
}
