//! Calls to the ends of the sessions in the table.

ghost use Rattle.std.specs.Prelude.{◌≡◌, ◌-◌, ◌<◌, ℕ, List, [], ◌∷◌, true, OnOk, OnErr, IsSome, IfSome};
ghost use Rattle.mq_tables.specs.Prelude.{Connect, Message, fits_delivery, told_of, CanServe, ServesAt, publish_call, CollectsAt, left, connected_end, HasConnectRoomAt, placed_at, AreSameButRoom, AreStillReady, IsReadyAt, ReadiesAt, session_at, with_server, AreAscending};

use crate::sessions::call::Call;
use crate::sessions::table::{Sessions, place};
use bytes::Bytes;
use mq_end::{PacketOutcome, PreparedMessage, PublishOutcome, PublishRefusal};
use mq_packet::{BoxedConnect, Connect, Delivery, Message};
use mq_topic::ClientKey;
use std::alloc::AllocError;

impl Sessions {
    /// Takes the pending output of a session's end without copying it.
    pub fn collect(&mut self, key: ClientKey) -> Result<Bytes, AllocError>
        requires { IsSome (session_at key self.old.list) }
        ensures collects { CollectsAt key result self.old.list self.new.list }
        ensures room { self.new.room ≡ self.old.room }
    {
        let list = self.list.as_mut_slice();
        let at = place(list, key);
        list[at].collect()
    }

    /// Has the end of a session, which must be connected, carry out a call.
    #[inline(always)]
    pub fn serve(&mut self, key: ClientKey, call: Call) -> Result<PacketOutcome, AllocError>
        requires { CanServe key call self.old.list }
        ensures serves { ServesAt key call result self.old.list self.new.list }
        ensures err { OnErr result (self.new.list ≡ self.old.list) }
        ensures room { self.new.room ≡ self.old.room }
    {
        let list = self.list.as_mut_slice();
        let at = place(list, key);
        list[at].serve(call)
    }

    /// Has the end of a session, which must be connected, process the PUBLISH of a message (3.3).
    /// The caller keeps the message.
    #[inline(always)]
    pub fn serve_publish(
        &mut self,
        key: ClientKey,
        now: u64,
        message: &Message,
        delivery: Option<Delivery>,
    ) -> Result<PublishOutcome, AllocError>
        requires can { CanServe key (publish_call now message.now delivery) self.old.list }
        requires fits { fits_delivery message.now.qos delivery ≡ true }
        ensures serves { ServesAt key (publish_call now message.now delivery) (told_of message.now result) self.old.list self.new.list }
        ensures err { OnErr result (self.new.list ≡ self.old.list) }
        ensures room { self.new.room ≡ self.old.room }
    {
        let list = self.list.as_mut_slice();
        let at = place(list, key);
        list[at].serve_publish(now, message, delivery)
    }

    /// Makes room in the end of a session for messages, and for `more` bytes besides their
    /// PUBLISHes.
    pub fn ready(
        &mut self,
        key: ClientKey,
        messages: &[Message],
        more: usize,
    ) -> Result<(), PublishRefusal>
        requires { IsSome (session_at key self.old.list) }
        ensures readies { ReadiesAt key messages.now more result self.old.list self.new.list }
        ensures ascending { AreAscending self.old.list }
        ensures room { self.new.room ≡ self.old.room }
    {
        let list = self.list.as_mut_slice();
        let at = place(list, key);
        list[at].ready(messages, more)
    }

    /// Has the end of a session publish a message for which it has room.
    pub fn publish(&mut self, key: ClientKey, message: PreparedMessage)
        requires { IsReadyAt key (message ∷ []) 0 self.old.list }
        ensures list { self.new.list ≡ placed_at key message self.old.list }
        ensures left { (rest : List Message) (more : ℕ) → IsReadyAt key (message ∷ rest) more self.old.list
            → IsReadyAt key rest more self.new.list }
        ensures room { self.new.room ≡ self.old.room }
    {
        let list = self.list.as_mut_slice();
        let at = place(list, key);
        list[at].publish(message);
    }

    /// Makes room in the end of a session to resume with this CONNECT, and then to send messages
    /// (3.2, 4.4). On `Err` only the capacity of that end may have changed.
    pub fn reserve_connect(
        &mut self,
        key: ClientKey,
        connect: &Connect,
        messages: &[Message],
    ) -> Result<(), AllocError>
        requires { IsSome (session_at key self.old.list) }
        ensures ok { OnOk result (HasConnectRoomAt connect.now key messages.now 0 self.new.list) }
        ensures same { AreSameButRoom self.old.list self.new.list }
        ensures still { AreStillReady self.old.list self.new.list }
        ensures room { self.new.room ≡ self.old.room }
    {
        let list = self.list.as_mut_slice();
        let at = place(list, key);
        list[at].reserve_connect(connect, messages)
    }

    /// The end of a session loses its connection (3.1.2.4) and keeps its room. Its pending output
    /// is dropped.
    pub(crate) fn lose_connection(&mut self, key: ClientKey)
        requires { IsSome (session_at key self.old.list) }
        ensures list { IfSome (session_at key self.old.list) (λ t. self.new.list ≡ with_server key (left t.end) self.old.list) }
        ensures connect_end { (c : Connect) (ms : List Message) (more : ℕ) → HasConnectRoomAt c key ms more self.old.list → HasConnectRoomAt c key ms more self.new.list }
        ensures room { self.new.room ≡ self.old.room }
    {
        let list = self.list.as_mut_slice();
        let at = place(list, key);
        list[at].lose_connection();
    }

    /// Has the end of a session process a CONNECT for which it has room (3.1.4, 3.2).
    pub(crate) fn connect_end(&mut self, key: ClientKey, connect: BoxedConnect, now: u64)
        requires { HasConnectRoomAt connect key [] 0 self.old.list }
        ensures list { IfSome (session_at key self.old.list) (λ t.
            self.new.list ≡ with_server key (connected_end connect now t.end) self.old.list) }
        ensures room { self.new.room ≡ self.old.room }
    {
        let list = self.list.as_mut_slice();
        let at = place(list, key);
        list[at].connect_end(connect, now);
    }
}
