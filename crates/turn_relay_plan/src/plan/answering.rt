//! Answers of the caller to its tasks.

ghost use Rattle.std.specs.Prelude.{◌≡◌, Ok};
ghost use Rattle.turn_relay_plan.specs.Answering.{Answers, IsDone, after_address, after_credentials, attempt_of, credentials_given, failed_by, failed_socket};
ghost use Rattle.turn_relay_plan.specs.Answering.{failed_task, found_address, resolved_by, resolved_name, socket_opened};

use crate::error::TaskError;
use crate::plan::Plan;
use crate::plan::attempting::task_end;
use std::net::SocketAddr;
use turn_relay_tries::attempts::Attempts;
use turn_relay_tries::causes::Cause;
use turn_relay_tries::tasks::{Attempt, Work};
use turn_session_book::tags::Tag;
use turn_stun::instant::Instant;

impl Plan {
    /// The caller has user name and password. It is then to look up the addresses of the server, and the try lasts for its time from
    /// now on.
    ///
    /// # Errors
    ///
    /// `NoTask` or `OutOfMemory`. Nothing changes then.
    pub fn credentials(&mut self, number: u64, now: Instant) -> Result<(), TaskError>
        ensures { Answers (credentials_given number now self.old) result self.old self.new }
    {
        match self.tasks.work_of(number) {
            Some(Work::Credentials) => self.look_up(number, now),
            _ => Err(TaskError::NoTask),
        }
    }

    /// The server has this address. Call `resolved` behind the last one.
    ///
    /// # Errors
    ///
    /// `NoTask` or `OutOfMemory`. Nothing changes then.
    pub fn found(&mut self, number: u64, address: SocketAddr) -> Result<(), TaskError>
        ensures { Answers (found_address number address self.old) result self.old self.new }
    {
        match self.tasks.work_of(number) {
            Some(Work::Resolve(_)) => self.add(address),
            _ => Err(TaskError::NoTask),
        }
    }

    /// The server has no further address: those that were found are attempted, IPv6 and IPv4 by turns (RFC 8305, section 4).
    ///
    /// # Errors
    ///
    /// `NoTask`, or `NoAddress` if none was found. Nothing changes then.
    pub fn resolved(&mut self, number: u64) -> Result<(), TaskError>
        ensures { (result, self.new) ≡ resolved_name number self.old }
    {
        match self.tasks.work_of(number) {
            Some(Work::Resolve(_)) => self.begin_attempts(number),
            _ => Err(TaskError::NoTask),
        }
    }

    /// The attempt for which the caller is to open a socket by this task, if it was given the task and has not answered it.
    pub fn attempt_of(&self, number: u64) -> Option<Attempt>
        ensures { result ≡ attempt_of number self.now }
    {
        match self.tasks.work_of(number) {
            Some(Work::Socket(attempt)) => Some(attempt),
            _ => None,
        }
    }

    /// The caller has opened the socket of this task. Returns the attempt that it is for.
    ///
    /// # Errors
    ///
    /// `NoTask`: the socket is to be closed again. Nothing changes then.
    pub fn socket_opened(&mut self, number: u64) -> Result<Attempt, TaskError>
        ensures { (result, self.new) ≡ socket_opened number self.old }
    {
        match self.tasks.work_of(number) {
            Some(Work::Socket(attempt)) => {
                self.tasks.end(number);
                Ok(attempt)
            }
            _ => Err(TaskError::NoTask),
        }
    }

    /// The caller could not do this task, by its error with this number. Returns the cause if the try has failed by it: it has unless
    /// the task was a socket, and another address is left.
    ///
    /// # Errors
    ///
    /// `NoTask`. Nothing changes then.
    pub fn failed(
        &mut self,
        number: u64,
        tag: Tag,
        now: Instant,
    ) -> Result<Option<Cause>, TaskError>
        ensures { (result, self.new) ≡ failed_task number tag now self.old }
    {
        match self.tasks.work_of(number) {
            Some(Work::Credentials) => Ok(self.fail_task(Cause::NoCredentials(tag), now)),
            Some(Work::Resolve(_)) => Ok(self.fail_task(Cause::NotResolved(tag), now)),
            Some(Work::Socket(attempt)) => Ok(self.fail_socket(number, attempt, now)),
            _ => Err(TaskError::NoTask),
        }
    }

    /// The caller is to look up the addresses of the server.
    ///
    /// # Errors
    ///
    /// `OutOfMemory`. Nothing changes then.
    fn look_up(&mut self, number: u64, now: Instant) -> Result<(), TaskError>
        ensures { IsDone (after_credentials number now self.old) result self.old self.new }
    {
        let until = task_end(self.course.try_end(now), now);
        match self.tasks.add(Work::Resolve(self.course.server), until) {
            Ok(_number) => {
                self.tasks.end(number);
                self.course.ready(now);
                Ok(())
            }
            Err(_) => Err(TaskError::OutOfMemory),
        }
    }

    /// The server has this address.
    ///
    /// # Errors
    ///
    /// `OutOfMemory`. Nothing changes then.
    fn add(&mut self, address: SocketAddr) -> Result<(), TaskError>
        ensures { IsDone (after_address address self.old) result self.old self.new }
    {
        match self.addresses.add(address) {
            Ok(()) => Ok(()),
            Err(_) => Err(TaskError::OutOfMemory),
        }
    }

    /// The addresses that were found are attempted.
    ///
    /// # Errors
    ///
    /// `NoAddress` if there are none. Nothing changes then.
    fn begin_attempts(&mut self, number: u64) -> Result<(), TaskError>
        ensures { (result, self.new) ≡ resolved_by number self.old }
    {
        let count = self.addresses.len();
        if count == 0 {
            return Err(TaskError::NoAddress);
        }
        self.tasks.end(number);
        self.attempts = Attempts::new(count);
        self.next = self.addresses.take_next();
        Ok(())
    }

    /// The try has failed by a task.
    fn fail_task(&mut self, cause: Cause, now: Instant) -> Option<Cause>
        ensures { (Ok result, self.new) ≡ failed_by cause now self.old }
    {
        self.fail(cause, now);
        Some(cause)
    }

    /// There is no connection to the address of this attempt.
    fn fail_socket(&mut self, number: u64, attempt: Attempt, now: Instant) -> Option<Cause>
        ensures { (Ok result, self.new) ≡ failed_socket number attempt now self.old }
    {
        self.tasks.end(number);
        if self.attempt_failed(attempt.place, Cause::NotConnected, now) {
            Some(Cause::NotConnected)
        } else {
            None
        }
    }
}
