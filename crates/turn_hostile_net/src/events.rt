//! The events that a client may report.

use crate::fault::Fault;
use std::alloc::Global;
use turn_client_api::TurnEvent;

/// The events that may come, each once.
#[derive(Drop)]
pub struct Events {
    /// `None` in place of one that came.
    due: Vec<Option<TurnEvent>>,
}

impl Events {
    /// No event may come.
    pub fn new(alloc: Global) -> Events {
        Events {
            due: Vec::new(alloc),
        }
    }

    /// This event may come, once more.
    ///
    /// # Errors
    ///
    /// If memory allocation fails.
    pub fn allow(&mut self, event: TurnEvent) -> Result<(), Fault> {
        Ok(self.due.push(Some(event))?)
    }

    /// An event came. Returns whether it may.
    pub fn report(&mut self, event: TurnEvent) -> bool {
        for due in self.due.iter_mut() {
            if *due == Some(event) {
                *due = None;
                return true;
            }
        }
        false
    }
}
