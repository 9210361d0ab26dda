//! Saving sessions, and continuing those that were loaded (3.1.2.4, 4.1).

ghost use Rattle.std.specs.Prelude.{◌≡◌, ◌++◌, true, All, OnOk, ◌<◌, None, IfSome, IsSome, false, IsTrue};
ghost use Rattle.mq_tables.specs.Prelude.{is_live, listed, saved_session, HasIdentifiers, session_of, sessions_of, session_at, AreAscending, AreBelow, HasContinued};

use crate::sessions::session::{BoxedSession, BrokerSession};
use crate::sessions::table::Sessions;
use mq_end::ServerEnd;
use mq_route::ConnectionTerms;
use mq_snapshot::{put_eight, put_session};
use mq_topic::ClientKey;
use std::alloc::{AllocError, Global};

fn save_one(alloc: Global, session: &BrokerSession, out: &mut Vec<u8>) -> Result<(), AllocError>
    requires { session.now.end.end.known ≡ true }
    ensures bytes { OnOk result (out.new.items ≡ out.old.items ++ saved_session (session_of session.now)) }
    ensures received { OnOk result (HasIdentifiers (session_of session.now)) }
{
    put_session(
        alloc,
        out,
        &session.client,
        session.key,
        session.left_at,
        &session.end,
    )
}

// Appends the number of sessions, and the sessions.
fn save_all(alloc: Global, list: &[BoxedSession], out: &mut Vec<u8>) -> Result<(), AllocError>
    requires { All (λ t. t.end.end.known ≡ true) list.now }
    ensures bytes { OnOk result (out.new.items ≡ out.old.items ++ listed saved_session (sessions_of list.now)) }
    ensures received { OnOk result (All (λ t. HasIdentifiers (session_of t)) list.now) }
{
    put_eight(out, list.len() as u64)?;
    for boxed in list {
        save_one(alloc, boxed.session(), out)?;
    }
    Ok(())
}

impl Sessions {
    /// Appends the sessions to a snapshot, after their number.
    pub fn save(&self, alloc: Global, out: &mut Vec<u8>) -> Result<(), AllocError>
        requires { All (λ t. t.end.end.known ≡ true) self.now.list }
        ensures bytes { OnOk result (out.new.items ≡ out.old.items ++ listed saved_session (sessions_of self.now.list)) }
        ensures received { OnOk result (All (λ t. HasIdentifiers (session_of t)) self.now.list) }
    {
        save_all(alloc, self.as_slice(), out)
    }

    /// The end of a session, which must have no connection, continues one. `blank` takes its place
    /// in the table meanwhile.
    pub fn continue_connection(
        &mut self,
        key: ClientKey,
        blank: ServerEnd,
        terms: &ConnectionTerms,
        last_activity: u64,
    )
        requires there { IsSome (session_at key self.old.list) }
        requires down { IfSome (session_at key self.old.list) (λ t. is_live t.end.end.state ≡ false) }
        ensures list { HasContinued terms.now last_activity key self.old.list self.new.list }
        ensures room { self.new.room ≡ self.old.room }
    {
        let mut end = blank;
        self.swap_end(key, &mut end);
        end.continue_connection(terms.clean_session, terms.keep_alive, last_activity);
        self.swap_end(key, &mut end);
    }

    // Whether a key is above those of all sessions.
    pub(crate) fn is_above(&self, key: ClientKey) -> bool
        requires { AreAscending self.now.list }
        ensures { IsTrue result → AreBelow key self.now.list }
    {
        match self.as_slice().last() {
            Some(last) => last.session().key < key,
            None => true,
        }
    }
}
