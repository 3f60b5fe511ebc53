//! A clone of a request, of an event or of a slot is the same value, and `==` decides equality.

use crate::event::{Event, Outgoing, Request};
use crate::slot::Slot;
use mqtt5_base::Exact;

impl Exact for Request {
    ghost use Rattle.std.proofs.Common.{rules};
    ghost use Rattle.mqtt5_inflight.specs.Sound.{request_sound};

    ghost same = { Prim.search rules };

    ghost sound = { request_sound };
}

impl Exact for Outgoing {
    ghost use Rattle.std.proofs.Common.{rules};
    ghost use Rattle.mqtt5_inflight.specs.Sound.{outgoing_sound};

    ghost same = { Prim.search rules };

    ghost sound = { outgoing_sound };
}

impl Exact for Event {
    ghost use Rattle.std.proofs.Common.{rules};
    ghost use Rattle.mqtt5_inflight.specs.Sound.{event_sound};

    ghost same = { Prim.search rules };

    ghost sound = { event_sound };
}

impl Exact for Slot {
    ghost use Rattle.std.proofs.Common.{rules};
    ghost use Rattle.mqtt5_inflight.specs.Sound.{slot_sound};

    ghost same = { Prim.search rules };

    ghost sound = { slot_sound };
}
