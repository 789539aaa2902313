//! Answers of the caller to its tasks.

ghost use Rattle.std.specs.Prelude.{◌≡◌};
ghost use Rattle.turn_relay_plan.specs.Answering.{Answers, attempt_of, credentials_given, found_address, resolved_name};
ghost use Rattle.turn_relay.specs.Calls.{Opens, failed_task_step, with_plan};

use crate::relay::Relay;
use std::net::SocketAddr;
use turn_client_api::TurnClientApi;
use turn_relay_lives::live::Live;
use turn_relay_plan::error::TaskError;
use turn_relay_tries::redirects::Redirects;
use turn_relay_tries::tasks::Attempt;
use turn_session::session::Session;
use turn_session_book::tags::Tag;
use turn_stun::instant::Instant;

impl<C: TurnClientApi> Relay<C> {
    /// The caller has user name and password for the try. It is then to look up the addresses of the server.
    ///
    /// # Errors
    ///
    /// `NoTask` or `OutOfMemory`. Nothing changes then.
    pub fn credentials(&mut self, number: u64, now: Instant) -> Result<(), TaskError>
        ensures answer { Answers (credentials_given number now self.old.plan) result self.old.plan self.new.plan }
        ensures rest { self.new ≡ with_plan self.new.plan self.old }
    {
        self.plan.credentials(number, now)
    }

    /// The server has this address. Call `resolved` behind the last one.
    ///
    /// # Errors
    ///
    /// `NoTask` or `OutOfMemory`. Nothing changes then.
    pub fn found(&mut self, number: u64, address: SocketAddr) -> Result<(), TaskError>
        ensures answer { Answers (found_address number address self.old.plan) result self.old.plan self.new.plan }
        ensures rest { self.new ≡ with_plan self.new.plan self.old }
    {
        self.plan.found(number, address)
    }

    /// The server has no further address.
    ///
    /// # Errors
    ///
    /// `NoTask`, or `NoAddress` if none was found. Nothing changes then.
    pub fn resolved(&mut self, number: u64) -> Result<(), TaskError>
        ensures answer { (result, self.new.plan) ≡ resolved_name number self.old.plan }
        ensures rest { self.new ≡ with_plan self.new.plan self.old }
    {
        self.plan.resolved(number)
    }

    /// The attempt for which the caller is to open a socket by this task, if it was given the task and has not answered it.
    pub fn attempt_of(&self, number: u64) -> Option<Attempt>
        ensures { result ≡ attempt_of number self.now.plan }
    {
        self.plan.attempt_of(number)
    }

    /// The caller has opened the socket of this task, and has made this client, which was not called yet, for its ends. From the
    /// seed come the transaction IDs of the checks of the path: nobody else may be able to guess it, nor may it be that of the
    /// client.
    ///
    /// # Errors
    ///
    /// `NoTask`: the socket is to be closed again. `OutOfMemory`: answer again, with another client. Nothing changes then.
    pub fn opened(
        &mut self,
        number: u64,
        client: C,
        seed: [u8; 32],
        now: Instant,
    ) -> Result<(), TaskError>
        ensures { Opens number seed now (C.state client) self.old self.new result }
    {
        let Some(attempt) = self.plan.attempt_of(number) else {
            return Err(TaskError::NoTask);
        };
        let settings = self.settings.session(client.transport());
        let session = Session::new(self.alloc, client, settings, seed, now);
        match self.lives.add(Live::new(number, attempt, session)) {
            Ok(()) => {
                let _opened = self.plan.socket_opened(number);
                Ok(())
            }
            Err(_) => Err(TaskError::OutOfMemory),
        }
    }

    /// The caller could not do this task, by its error with this number. The try has failed unless the task was a socket, and
    /// another address is left.
    ///
    /// # Errors
    ///
    /// `NoTask`. Nothing changes then.
    pub fn failed(&mut self, number: u64, tag: Tag, now: Instant) -> Result<(), TaskError>
        ensures { (result, self.new) ≡ failed_task_step number tag now self.old }
    {
        match self.plan.failed(number, tag, now) {
            Ok(Some(cause)) => {
                self.lives.leave_all(now);
                self.report = self.failure_event(false, cause);
                self.redirects = Redirects::new(self.settings.redirects, self.alloc);
                Ok(())
            }
            Ok(None) => Ok(()),
            Err(error) => Err(error),
        }
    }
}
