//! What is noted of a client.

ghost use Rattle.std.specs.Prelude.{◌≡◌, OnErr, OnOk};
ghost use Rattle.turn_session_client.specs.Notes.{adopted, failed, new_notes, noted, permission_failed, permitted, is_asked};
ghost use Rattle.turn_session_client.specs.Notes.{is_last_question, is_question, question_failed, shelved, without_question};

use std::alloc::{AllocError, Global};
use std::net::SocketAddr;
use turn_client_api::TurnEvent;
use turn_session_book::book::Book;
use turn_session_book::held::Held;
use turn_session_book::keys::Key;
use turn_session_book::replies::ErrorReply;
use turn_stun::instant::Instant;
use turn_types::TransportType;

/// What is noted of a client.
#[derive(Debug, Drop)]
pub struct Notes {
    /// The requests, what was granted, what rests, and the events that the caller has not polled.
    pub book: Book,
    /// The transport that the server relays over, once it has granted an address.
    pub relays: Option<TransportType>,
    /// This client's address, as the server sees it.
    pub mapped: Option<SocketAddr>,
    /// The error response that was received last, if the events of the client that are to be noted may come from it.
    pub reply: Option<ErrorReply>,
    /// A grant that was kept, and whose renewal had no response.
    pub silent: Option<Key>,
    /// The permission that was requested last to ask whether the server knows the allocation, unless it has ended.
    pub question: Option<Key>,
    /// Those before it that have not ended.
    pub questions: Held,
    /// What the server has said to the last of these, until that is used.
    pub told: Option<Told>,
}

/// What the server has said to a request for a permission that is of no use.
#[derive(Clone, Copy, Debug)]
pub struct Told {
    /// The error, or `None` if it was granted.
    pub error: Option<ErrorReply>,
}

impl Notes {
    /// Nothing has happened.
    pub fn new(alloc: Global) -> Notes
        ensures { result ≡ new_notes }
    {
        Notes {
            book: Book::new(alloc),
            relays: None,
            mapped: None,
            reply: None,
            silent: None,
            question: None,
            questions: Held::new(alloc),
            told: None,
        }
    }

    /// Notes an event of the client.
    ///
    /// # Errors
    ///
    /// If memory allocation fails. Nothing changes then.
    pub fn note(&mut self, event: TurnEvent, now: Instant) -> Result<(), AllocError>
        ensures ok { OnOk result (self.new ≡ noted event now self.old) }
        ensures err { OnErr result (self.new ≡ self.old) }
    {
        match event {
            TurnEvent::AllocationCreated(transport, relayed) => self.relayed(transport, relayed),
            TurnEvent::AllocationCreateFailed(family) => self
                .book
                .family_failed(family, self.reply),
            TurnEvent::PermissionCreated(_, ip) => self.permitted(Key::Permission(ip)),
            TurnEvent::PermissionCreateFailed(_, ip) => self.refused(Key::Permission(ip), now),
            TurnEvent::ChannelCreated(_, peer) => self.book.bound(peer),
            TurnEvent::ChannelCreateFailed(_, peer) => self.failed(Key::Channel(peer), now),
            TurnEvent::TcpConnected(peer) => self.book.connected(Key::Connect(peer)),
            TurnEvent::TcpConnectFailed(peer) => {
                self.book.disconnected(Key::Connect(peer), self.reply, now)
            }
        }
    }

    /// The server granted this relayed address.
    fn relayed(&mut self, transport: TransportType, relayed: SocketAddr) -> Result<(), AllocError>
        ensures ok { OnOk result (self.new ≡ noted (TurnEvent.AllocationCreated transport relayed) 0 self.old) }
        ensures err { OnErr result (self.new ≡ self.old) }
    {
        self.book
            .opened(relayed, self.mapped, self.relays.is_none())?;
        self.relays = Some(transport);
        Ok(())
    }

    /// The server granted this permission, which is the answer to a question, or noted.
    fn permitted(&mut self, key: Key) -> Result<(), AllocError>
        ensures ok { OnOk result (self.new ≡ permitted key self.old) }
        ensures err { OnErr result (self.new ≡ self.old) }
    {
        if self.is_question(key) {
            self.told = Some(Told { error: None });
            return Ok(());
        }
        self.book.granted(key)?;
        self.forget_question(key);
        Ok(())
    }

    /// The caller requests this permission, which is granted. If it was a question, it is the caller's from now on, as if the server
    /// had granted it now.
    ///
    /// # Errors
    ///
    /// If memory allocation fails. Nothing changes then.
    pub fn adopt(&mut self, key: Key) -> Result<(), AllocError>
        ensures ok { OnOk result (self.new ≡ adopted key self.old) }
        ensures err { OnErr result (self.new ≡ self.old) }
    {
        if !self.is_asked(key) {
            return Ok(());
        }
        self.book.granted(key)?;
        self.forget_question(key);
        Ok(())
    }

    /// The server refused this permission, or did not answer in time, which is noted, unless it was a question.
    fn refused(&mut self, key: Key, now: Instant) -> Result<(), AllocError>
        ensures ok { OnOk result (self.new ≡ permission_failed key now self.old) }
        ensures err { OnErr result (self.new ≡ self.old) }
    {
        if self.is_question(key) {
            self.answered(key);
            return Ok(());
        }
        self.failed(key, now)?;
        self.forget_question(key);
        Ok(())
    }

    /// A question has ended: the server has said this error, or none.
    fn answered(&mut self, key: Key)
        ensures { self.new ≡ question_failed key self.old }
    {
        self.forget_question(key);
        if self.reply.is_some() {
            self.told = Some(Told { error: self.reply });
        }
    }

    /// This permission is no question any more.
    fn forget_question(&mut self, key: Key)
        ensures { self.new ≡ without_question key self.old }
    {
        if self.is_last_question(key) {
            self.question = None;
        }
        let _kept = self.questions.ended(key);
    }

    /// Whether this permission is a question, and none that the caller has requested since, or needs for another request.
    fn is_question(&self, key: Key) -> bool
        ensures { result ≡ is_question key self.now }
    {
        self.is_asked(key) && !self.book.is_requested(key)
    }

    /// Whether this permission was requested as a question, and has not ended.
    pub fn is_asked(&self, key: Key) -> bool
        ensures { result ≡ is_asked key self.now }
    {
        self.is_last_question(key) || self.questions.is_held(key)
    }

    /// Whether it is the question that was asked last.
    fn is_last_question(&self, key: Key) -> bool
        ensures { result ≡ is_last_question key self.now.question }
    {
        match self.question {
            Some(question) => question == key,
            None => false,
        }
    }

    /// Notes the question that was asked last with those before it, so that another one can be asked.
    ///
    /// # Errors
    ///
    /// If memory allocation fails. Nothing changes then.
    pub fn shelve_question(&mut self) -> Result<(), AllocError>
        ensures ok { OnOk result (self.new ≡ shelved self.old) }
        ensures err { OnErr result (self.new ≡ self.old) }
    {
        let Some(question) = self.question else {
            return Ok(());
        };
        self.questions.granted(question, true)?;
        self.question = None;
        Ok(())
    }

    /// The server refused this key, by the error that was received last, or did not answer in time.
    fn failed(&mut self, key: Key, now: Instant) -> Result<(), AllocError>
        ensures ok { OnOk result (self.new ≡ failed key now self.old) }
        ensures err { OnErr result (self.new ≡ self.old) }
    {
        let is_silent = self.reply.is_none() && self.book.is_kept(key);
        self.book.failed(key, self.reply, now)?;
        if is_silent {
            self.silent = Some(key);
        }
        Ok(())
    }
}
