//! The flags of CONNECT (3.1.2.3).

ghost use Rattle.std.specs.Prelude.{◌≡◌};
ghost use Rattle.mq_decode.specs.Prelude.{flags_from, will_from, login_from};

use mq_topic::Qos;

/// The flags of a CONNECT.
#[derive(Clone, Copy)]
pub(crate) struct ConnectFlags {
    pub(crate) clean_session: bool,
    pub(crate) will: Option<WillFlags>,
    /// Whether a password follows the user name, or `None` without a user name.
    pub(crate) password: Option<bool>,
}

/// The will flags.
#[derive(Clone, Copy)]
pub(crate) struct WillFlags {
    pub(crate) qos: Qos,
    pub(crate) retain: bool,
}

fn will_from(byte: u8) -> Option<Option<WillFlags>>
    ensures { result ≡ will_from byte }
{
    if byte / 4 % 2 == 1 {
        let qos = Qos::from_number(byte / 8 % 4)?;
        let retain = byte / 32 % 2 == 1;
        return Some(Some(WillFlags { qos, retain }));
    }
    if byte / 8 % 8 == 0 { Some(None) } else { None }
}

fn login_from(byte: u8) -> Option<Option<bool>>
    ensures { result ≡ login_from byte }
{
    let has_password = byte / 64 % 2 == 1;
    if byte / 128 == 1 {
        return Some(Some(has_password));
    }
    if has_password { None } else { Some(None) }
}

/// The flags in a byte, or `None` if they are invalid.
pub(crate) fn flags_from(byte: u8) -> Option<ConnectFlags>
    ensures { result ≡ flags_from byte }
{
    if byte % 2 != 0 {
        return None;
    }
    let clean_session = byte / 2 % 2 == 1;
    let will = will_from(byte)?;
    let password = login_from(byte)?;
    Some(ConnectFlags {
        clean_session,
        will,
        password,
    })
}
