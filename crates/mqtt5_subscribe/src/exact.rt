//! A clone of each type is the same value, and its `==` decides equality.

use crate::filter::{Filter, RetainForwardRule};
use crate::suback::{SubAck, SubscribeReasonCode};
use crate::subscribe::{Subscribe, SubscribeProperties};
use crate::unsuback::{UnsubAck, UnsubAckReason};
use crate::unsubscribe::{Unsubscribe, UnsubscribeProperties};
use mqtt5_base::Exact;

impl Exact for RetainForwardRule {
    ghost use Rattle.std.proofs.Common.{rules};
    ghost use Rattle.mqtt5_subscribe.specs.Sound.{rule_sound};

    ghost same = { Prim.search rules };

    ghost sound = { rule_sound };
}

impl Exact for Filter {
    ghost use Rattle.std.proofs.Common.{rules};
    ghost use Rattle.mqtt5_subscribe.specs.Sound.{filter_sound};

    ghost same = { Prim.search rules };

    ghost sound = { filter_sound };
}

impl Exact for SubscribeProperties {
    ghost use Rattle.std.proofs.Common.{rules};
    ghost use Rattle.mqtt5_subscribe.specs.Sound.{subscribe_properties_sound};

    ghost same = { Prim.search rules };

    ghost sound = { subscribe_properties_sound };
}

impl Exact for Subscribe {
    ghost use Rattle.std.proofs.Common.{rules};
    ghost use Rattle.mqtt5_subscribe.specs.Sound.{subscribe_sound};

    ghost same = { Prim.search rules };

    ghost sound = { subscribe_sound };
}

impl Exact for SubscribeReasonCode {
    ghost use Rattle.std.proofs.Common.{rules};
    ghost use Rattle.mqtt5_subscribe.specs.Sound.{suback_reason_sound};

    ghost same = { Prim.search rules };

    ghost sound = { suback_reason_sound };
}

impl Exact for SubAck {
    ghost use Rattle.std.proofs.Common.{rules};
    ghost use Rattle.mqtt5_subscribe.specs.Sound.{suback_sound};

    ghost same = { Prim.search rules };

    ghost sound = { suback_sound };
}

impl Exact for UnsubscribeProperties {
    ghost use Rattle.std.proofs.Common.{rules};
    ghost use Rattle.mqtt5_subscribe.specs.Sound.{unsubscribe_properties_sound};

    ghost same = { Prim.search rules };

    ghost sound = { unsubscribe_properties_sound };
}

impl Exact for Unsubscribe {
    ghost use Rattle.std.proofs.Common.{rules};
    ghost use Rattle.mqtt5_subscribe.specs.Sound.{unsubscribe_sound};

    ghost same = { Prim.search rules };

    ghost sound = { unsubscribe_sound };
}

impl Exact for UnsubAckReason {
    ghost use Rattle.std.proofs.Common.{rules};
    ghost use Rattle.mqtt5_subscribe.specs.Sound.{unsuback_reason_sound};

    ghost same = { Prim.search rules };

    ghost sound = { unsuback_reason_sound };
}

impl Exact for UnsubAck {
    ghost use Rattle.std.proofs.Common.{rules};
    ghost use Rattle.mqtt5_subscribe.specs.Sound.{unsuback_sound};

    ghost same = { Prim.search rules };

    ghost sound = { unsuback_sound };
}
