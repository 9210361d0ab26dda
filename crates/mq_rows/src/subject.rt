//! The subject of a list.

use crate::decoders::Decoders;
use crate::fields::bytes_of;
use crate::row::RowAct;
use crate::sessions::{self, Books};
use crate::stores::Stores;
use crate::words::Words;
use crate::wrong::Wrong;
use crate::{clients, encoding, forms, limited, queues, servers, values};
use mq_decode::Limits;
use mq_end::{ByteQueue, ClientEnd, ServerEnd};
use mq_flow::Session;
use std::alloc::Global;
use std::mem;

/// The subject of a list.
#[derive(Drop)]
pub(crate) enum Subject {
    /// No list began.
    Nothing,
    /// Values of the layers below packets, codes and errors.
    Values,
    /// Encoded packets.
    Packets,
    /// Bytes under a limit.
    Bytes(Limits),
    /// Stores of subscriptions.
    Stores(Box<Stores>),
    /// Decoders.
    Decoders(Box<Decoders>),
    /// A session.
    Session(Box<Books>),
    /// The saved form of a session.
    Form(Vec<u8>),
    /// A client end.
    Client(Box<ClientEnd>),
    /// A server end.
    Server(Box<ServerEnd>),
    /// Pending bytes.
    Queue(ByteQueue),
}

/// The subject that the words after `new` ask for.
pub(crate) fn new_subject(alloc: Global, words: &mut Words<'_>) -> Result<Subject, Wrong> {
    match words.word()? {
        "values" => Ok(Subject::Values),
        "packets" => Ok(Subject::Packets),
        "bytes" => Ok(Subject::Bytes(words.limits()?)),
        "stores" => Ok(Subject::Stores(Box::new(alloc, Stores::new(alloc))?)),
        "decoders" => new_decoders(alloc, words),
        "session" => new_books(alloc, words),
        "loaded" => loaded_books(alloc, words),
        "form" => new_form(alloc, words),
        "client" => new_client(alloc, words),
        "server" => new_server(alloc, words),
        "queue" => Ok(Subject::Queue(ByteQueue::new(alloc))),
        _ => Err(Wrong::Words),
    }
}

fn new_decoders(alloc: Global, words: &mut Words<'_>) -> Result<Subject, Wrong> {
    let decoders = Decoders::new(alloc, words.limits()?);
    Ok(Subject::Decoders(Box::new(alloc, decoders)?))
}

fn new_books(alloc: Global, words: &mut Words<'_>) -> Result<Subject, Wrong> {
    let books = sessions::new_books(alloc, words)?;
    Ok(Subject::Session(Box::new(alloc, books)?))
}

fn loaded_books(alloc: Global, words: &mut Words<'_>) -> Result<Subject, Wrong> {
    let books = sessions::loaded_books(alloc, words)?;
    Ok(Subject::Session(Box::new(alloc, books)?))
}

fn new_form(alloc: Global, words: &mut Words<'_>) -> Result<Subject, Wrong> {
    Ok(Subject::Form(bytes_of(alloc, words)?))
}

fn new_client(alloc: Global, words: &mut Words<'_>) -> Result<Subject, Wrong> {
    let client = clients::new_client(alloc, words)?;
    Ok(Subject::Client(Box::new(alloc, client)?))
}

fn new_server(alloc: Global, words: &mut Words<'_>) -> Result<Subject, Wrong> {
    let server = servers::new_server(alloc, words)?;
    Ok(Subject::Server(Box::new(alloc, server)?))
}

fn resumed_client(alloc: Global, books: Books, words: &mut Words<'_>) -> Result<Subject, Wrong> {
    match clients::resume(alloc, books, words)? {
        Some(client) => Ok(Subject::Client(Box::new(alloc, client)?)),
        None => Ok(Subject::Nothing),
    }
}

fn resumed_server(alloc: Global, books: Books, words: &mut Words<'_>) -> Result<Subject, Wrong> {
    match servers::resume(alloc, books, words)? {
        Some(server) => Ok(Subject::Server(Box::new(alloc, server)?)),
        None => Ok(Subject::Nothing),
    }
}

impl Subject {
    // `becomes client ROOM LIMIT` or `becomes server ROOM LIMIT` of a session: from here on the
    // list is of the end that continues with it.
    fn go_on(
        &mut self,
        alloc: Global,
        words: &mut Words<'_>,
        told: &mut String,
    ) -> Result<(), Wrong> {
        let Subject::Session(books) = mem::replace(self, Subject::Nothing) else {
            return Err(Wrong::Words);
        };
        *self = match words.word() {
            Ok("client") => resumed_client(alloc, Box::into_inner(books), words)?,
            _ => resumed_server(alloc, Box::into_inner(books), words)?,
        };
        if matches!(self, Subject::Nothing) {
            told.push_str("too large")?;
        }
        Ok(())
    }

    fn tell_words(
        &mut self,
        alloc: Global,
        moment: u64,
        words: &mut Words<'_>,
        told: &mut String,
    ) -> Result<(), Wrong> {
        if words.begin_with("becomes") {
            return self.go_on(alloc, words, told);
        }
        match self {
            Subject::Nothing => Err(Wrong::Words),
            Subject::Values => values::tell(alloc, words, told),
            Subject::Packets => encoding::tell(alloc, words, told),
            Subject::Bytes(limits) => limited::tell(alloc, *limits, words, told),
            Subject::Stores(stores) => stores.tell(alloc, words, told),
            Subject::Decoders(decoders) => decoders.tell(alloc, words, told),
            Subject::Session(books) => sessions::tell(alloc, books, words, told),
            Subject::Form(form) => forms::tell(alloc, form.as_slice(), words, told),
            Subject::Client(client) => clients::tell(alloc, client, moment, words, told),
            Subject::Server(server) => servers::tell(alloc, server, moment, words, told),
            Subject::Queue(queue) => queues::tell(alloc, queue, words, told),
        }
    }

    pub(crate) fn tell(
        &mut self,
        alloc: Global,
        act: RowAct<'_>,
        told: &mut String,
    ) -> Result<(), Wrong> {
        let mut words = act.words;
        self.tell_words(alloc, act.moment, &mut words, told)?;
        if words.is_empty() {
            Ok(())
        } else {
            Err(Wrong::Words)
        }
    }

    // The session that it is, or that it has.
    fn session(&self) -> Option<&Session> {
        match self {
            Subject::Session(books) => Some(&books.session),
            Subject::Client(client) => client.session(),
            Subject::Server(server) => server.session(),
            _ => None,
        }
    }

    /// Adds the identifier that its session gives next.
    pub(crate) fn see_next(&self, seen: &mut String) -> Result<(), Wrong> {
        let Some(session) = self.session() else {
            return Err(Wrong::Words);
        };
        seen.push_str(" next ")?;
        sessions::add_next(seen, &session.sender)
    }

    pub(crate) fn see(&mut self, written: Option<usize>, seen: &mut String) -> Result<(), Wrong> {
        match self {
            Subject::Session(books) => sessions::see(&books.session, seen),
            Subject::Client(client) => clients::see(client, written, seen),
            Subject::Server(server) => servers::see(server, written, seen),
            Subject::Queue(queue) => queues::see(queue, seen),
            _ => Ok(()),
        }
    }
}
