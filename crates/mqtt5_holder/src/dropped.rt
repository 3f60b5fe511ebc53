//! The requests that a session let go.

ghost use Rattle.std.specs.Prelude.{◌≡◌, [], drop, slice_get, option_copied};

use mqtt5_client::Request;
use std::alloc::Global;
use std::collections::VecDeque;
use std::marker::Model;

/// Requests that were let go, the oldest first. Contracts see a list.
#[derive(Drop)]
pub struct Dropped {
    requests: VecDeque<Request>,
}

impl Model for Dropped {
    ghost use Rattle.std.specs.Prelude.{List};
    ghost use Rattle.mqtt5_inflight.specs.declared.event.Request.{Request};

    ghost Value = { List Request };

    ghost view = { λ d. d.requests.items };
}

impl Dropped {
    /// None of them. Takes no memory.
    pub fn new(alloc: Global) -> Dropped
        ensures { result ≡ [] }
    {
        Dropped {
            requests: VecDeque::new(alloc),
        }
    }

    /// The oldest one; None where there is none. Takes no memory.
    pub fn first(&self) -> Option<&Request>
        ensures { option_copied result ≡ slice_get self.now 0 }
    {
        self.requests.front()
    }

    /// Takes the oldest one out; None where there is none. Takes no memory.
    pub fn pop(&mut self) -> Option<Request>
        ensures request { result ≡ slice_get self.old 0 }
        ensures rest { self.new ≡ drop 1 self.old }
    {
        self.requests.pop_front()
    }
}

/// The same requests, in their order. Takes no memory.
impl From<Vec<Request>> for Dropped {
    ghost use Rattle.std.specs.Prelude.{◌≡◌};

    ghost from_gives = { λ requests d. d ≡ requests.items };

    fn from(requests: Vec<Request>) -> Dropped {
        Dropped {
            requests: VecDeque::from(requests),
        }
    }
}
