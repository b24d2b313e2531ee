ghost use Rattle.std.specs.Prelude.{◌≡◌, IfOk};

use crate::{Ask, Reply};
use std::alloc::{AllocError, Global};

/// One ask as it was served: whose it was, the moment in seconds that it was handed in with, and its reply.
#[derive(Drop)]
pub struct Event {
    pub lane: u32,
    pub moment: u64,
    pub ask: Ask,
    pub reply: Reply,
}

impl Event {
    /// An equal value.
    pub fn copy(&self, alloc: Global) -> Result<Event, AllocError>
        ensures { IfOk result (λ copy. copy ≡ self.now) }
    {
        let reply = match &self.reply {
            Ok(answer) => Ok(answer.copy(alloc)?),
            Err(errno) => Err(*errno),
        };
        Ok(Event {
            lane: self.lane,
            moment: self.moment,
            ask: self.ask.copy(alloc)?,
            reply,
        })
    }
}
