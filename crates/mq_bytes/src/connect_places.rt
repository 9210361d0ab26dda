//! The places of the fields of a CONNECT (3.1).

ghost use Rattle.std.specs.Prelude.{◌≡◌, ◌+◌, length};
ghost use Rattle.mq_bytes.specs.Prelude.{connect_fields, login_fields, password_fields, will_fields, Lies, ShowsConnect, ShowsLogin, ShowsPassword, ShowsWill};

use crate::front_fields::bare;
use crate::places::{Field, PacketFields};
use mq_decode::{ConnectView, LoginView, WillView};

/// The CONNECT whose fields begin at `start`.
#[tactic(auto, using(crate::proofs::Lying::lies_client))]
pub(crate) fn connect_fields(
    bytes: &[u8],
    connect: &ConnectView<'_>,
    start: usize,
    size: usize,
) -> PacketFields
    requires { Lies bytes.now start (connect_fields connect.now) }
    ensures shows { ShowsConnect bytes.now result connect.now }
    ensures size { result.size ≡ size }
{
    let connect = connect.fields();
    let client_id = Field {
        at: start + 12,
        size: connect.client_id.as_str().len(),
    };
    let (will, behind) = will_places(bytes, &connect.will, client_id.at + client_id.size);
    let login = login_places(bytes, &connect.login, behind);
    let mut fields = bare(1, size);
    fields.clean_session = connect.clean_session;
    fields.keep_alive = connect.keep_alive;
    fields.client_id = client_id;
    fields.has_will = will.has_will;
    fields.qos = will.qos;
    fields.retain = will.retain;
    fields.topic = will.topic;
    fields.payload = will.message;
    fields.has_user_name = login.has_user_name;
    fields.user_name = login.user_name;
    fields.has_password = login.has_password;
    fields.password = login.password;
    fields
}

const NOWHERE: Field = Field { at: 0, size: 0 };

#[derive(Clone, Copy)]
struct WillPlaces {
    has_will: bool,
    qos: u8,
    retain: bool,
    topic: Field,
    message: Field,
}

// The places of a will, whose fields begin at `at`, and the index behind them.
#[tactic(auto, using(crate::proofs::Lying::lies_first, crate::proofs::Lying::lies_second))]
fn will_places(bytes: &[u8], will: &Option<WillView<'_>>, at: usize) -> (WillPlaces, usize)
    requires { Lies bytes.now at (will_fields will.now) }
    ensures shows { ShowsWill bytes.now result.0.has_will result.0.topic result.0.message result.0.qos result.0.retain will.now }
    ensures end { result.1 ≡ at + length (will_fields will.now) }
{
    let Some(will) = will else {
        let none = WillPlaces {
            has_will: false,
            qos: 0,
            retain: false,
            topic: NOWHERE,
            message: NOWHERE,
        };
        return (none, at);
    };
    let topic = Field {
        at: at + 2,
        size: will.topic().len(),
    };
    let message = Field {
        at: topic.at + topic.size + 2,
        size: will.message().len(),
    };
    let places = WillPlaces {
        has_will: true,
        qos: will.qos().number(),
        retain: will.retain(),
        topic,
        message,
    };
    (places, message.at + message.size)
}

#[derive(Clone, Copy)]
struct LoginPlaces {
    has_user_name: bool,
    user_name: Field,
    has_password: bool,
    password: Field,
}

// The places of a user name and a password, whose fields begin at `at`.
#[tactic(auto, using(crate::proofs::Lying::lies_first, crate::proofs::Lying::lies_after))]
fn login_places(bytes: &[u8], login: &Option<LoginView<'_>>, at: usize) -> LoginPlaces
    requires { Lies bytes.now at (login_fields login.now) }
    ensures { ShowsLogin bytes.now result.has_user_name result.user_name result.has_password result.password login.now }
{
    let Some(login) = login else {
        return LoginPlaces {
            has_user_name: false,
            user_name: NOWHERE,
            has_password: false,
            password: NOWHERE,
        };
    };
    let user_name = Field {
        at: at + 2,
        size: login.name().len(),
    };
    let (has_password, password) = password_place(bytes, login, user_name.at + user_name.size);
    LoginPlaces {
        has_user_name: true,
        user_name,
        has_password,
        password,
    }
}

// Whether there is a password, and its place, if its field begins at `at`.
#[tactic(auto, using(crate::proofs::Lying::lies_counted))]
fn password_place(bytes: &[u8], login: &LoginView<'_>, at: usize) -> (bool, Field)
    requires { Lies bytes.now at (password_fields login.now.password) }
    ensures { ShowsPassword bytes.now result.0 result.1 login.now.password }
{
    match login.password() {
        Some(password) => {
            let place = Field {
                at: at + 2,
                size: password.len(),
            };
            (true, place)
        }
        None => (false, NOWHERE),
    }
}
