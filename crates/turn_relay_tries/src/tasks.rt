//! What the caller of a relay is to do for it: look up names, open sockets, and give its user name and password.

ghost use Rattle.std.specs.Prelude.{◌≡◌, [], IfOk, OnErr, OnOk};
ghost use Rattle.std.specs.List.{position};
ghost use Rattle.turn_relay_tries.specs.Tasks.{added, after_end, after_giving, deadline_of, is_given_as, is_late_at, is_new, late_task, next_task, no_tasks, sooner_of, withdrawn, work_of};

use std::alloc::{AllocError, Global};
use std::marker::Model;
use std::net::SocketAddr;
use turn_stun::instant::Instant;

/// What the caller is to do.
#[derive(Clone, Copy, Debug, PartialEq, Eq)]
pub enum Work {
    /// Give the user name and the password for the next try.
    Credentials,
    /// Look up the addresses of the server at this place of the list.
    Resolve(usize),
    /// Open a socket for this attempt, from a new local port. The number of the task is then that of the socket.
    Socket(Attempt),
    /// Close the socket that has the number of this task. This is not answered.
    Close,
}

/// An attempt with an address of a server.
#[derive(Clone, Copy, Debug, PartialEq, Eq)]
pub struct Attempt {
    /// The place of the server in the list.
    pub server: usize,
    /// The place of the address among those of the server, in the order in which they are attempted.
    pub place: usize,
    /// The address.
    pub to: SocketAddr,
}

/// A task of the caller.
#[derive(Clone, Copy, Debug, PartialEq, Eq)]
pub struct Task {
    /// The number by which it is answered.
    pub number: u64,
    /// What is to be done.
    pub work: Work,
}

/// A task that is not answered yet.
#[derive(Clone, Copy, Debug, PartialEq, Eq)]
pub struct OpenTask {
    /// The task.
    pub task: Task,
    /// When it has failed unless it is answered before.
    pub deadline: Instant,
    /// Whether the caller was told of it.
    pub is_given: bool,
}

/// The tasks that are not answered yet, in the order in which they were set. Each one is given to the caller once, and is answered
/// once, in any order. One without an answer by its deadline has failed.
#[derive(Debug, Drop)]
pub struct Tasks {
    rows: Vec<OpenTask>,
    next: u64,
}

impl Model for Tasks {
    ghost use Rattle.turn_relay_tries.specs.TasksState.{TasksState};

    ghost Value = { TasksState };

    ghost view = { λ t. record { rows = t.rows.items; next = t.next } };
}

impl Tasks {
    /// No tasks. The first one has the number 1.
    pub fn new(alloc: Global) -> Tasks
        ensures { result ≡ no_tasks }
    {
        Tasks {
            rows: Vec::new(alloc),
            next: 1,
        }
    }

    /// Sets a task, which is to be answered by this time. Returns its number: no task before it had the same one, up to 2^64 tasks.
    ///
    /// # Errors
    ///
    /// If memory allocation fails. Nothing changes then.
    pub fn add(&mut self, work: Work, deadline: Instant) -> Result<u64, AllocError>
        ensures number { IfOk result (λ number. number ≡ self.old.next) }
        ensures ok { OnOk result (self.new ≡ added work deadline self.old) }
        ensures err { OnErr result (self.new ≡ self.old) }
    {
        self.rows.reserve(1)?;
        let number = self.next;
        self.rows.push_reserved(OpenTask {
            task: Task { number, work },
            deadline,
            is_given: false,
        });
        self.next = number.wrapping_add(1);
        Ok(number)
    }

    /// The oldest task that was not given to the caller yet. It is given now.
    pub fn give(&mut self) -> Option<Task>
        ensures task { result ≡ next_task self.old }
        ensures after { self.new ≡ after_giving self.old }
    {
        match self.new_place() {
            Some(place) => {
                let row = self.rows[place];
                self.rows[place] = OpenTask {
                    is_given: true,
                    ..row
                };
                Some(row.task)
            }
            None => None,
        }
    }

    /// What the task with this number is for, if it was given and has no answer yet. `None` if it was answered before, is late, was
    /// withdrawn, or was never given: the caller's answer is then to be refused.
    pub fn work_of(&self, number: u64) -> Option<Work>
        ensures { result ≡ work_of number self.now }
    {
        match self.place_of(number) {
            Some(place) => Some(self.rows[place].task.work),
            None => None,
        }
    }

    /// The task with this number is answered.
    pub fn end(&mut self, number: u64)
        ensures { self.new ≡ after_end number self.old }
    {
        if let Some(place) = self.place_of(number) {
            let _answered = self.rows.remove(place);
        }
    }

    /// The oldest task that should have been answered by now.
    pub fn late(&self, now: Instant) -> Option<Task>
        ensures { result ≡ late_task now self.now }
    {
        match self.late_place(now) {
            Some(place) => Some(self.rows[place].task),
            None => None,
        }
    }

    /// Withdraws all tasks: whoever answers one of them is refused.
    pub fn withdraw(&mut self)
        ensures { self.new ≡ withdrawn self.old }
    {
        self.rows.clear();
    }

    /// The soonest time at which a task is late.
    pub fn due(&self) -> Option<Instant>
        ensures { result ≡ deadline_of self.now }
    {
        self.rows
            .iter()
            .fold(None, |due, row| sooner_of(due, row.deadline))
    }

    /// The place of the oldest task that was not given.
    fn new_place(&self) -> Option<usize>
        ensures { result ≡ position is_new self.now.rows }
    {
        self.rows.iter().position(|row| !row.is_given)
    }

    /// The place of the task with this number, if it was given.
    fn place_of(&self, number: u64) -> Option<usize>
        ensures { result ≡ position (is_given_as number) self.now.rows }
    {
        self.rows
            .iter()
            .position(|row| row.is_given && row.task.number == number)
    }

    /// The place of the oldest task whose deadline is reached.
    fn late_place(&self, now: Instant) -> Option<usize>
        ensures { result ≡ position (is_late_at now) self.now.rows }
    {
        self.rows.iter().position(|row| row.deadline <= now)
    }
}

/// The sooner of a time, if there is one, and another one.
pub fn sooner_of(due: Option<Instant>, time: Instant) -> Option<Instant>
    ensures { result ≡ sooner_of due time }
{
    match due {
        Some(due) => Some(due.min(time)),
        None => Some(time),
    }
}
