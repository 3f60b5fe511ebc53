//! A clone of each type is the same value, and its `==` decides equality.

use crate::ping::{PingReq, PingResp};
use crate::puback::{PubAck, PubAckReason};
use crate::pubcomp::PubComp;
use crate::publish::{Publish, PublishProperties};
use crate::pubrec::PubRec;
use crate::pubrel::{PubRel, PubRelReason};
use mqtt5_base::Exact;

impl Exact for PubAckReason {
    ghost use Rattle.std.proofs.Common.{rules};
    ghost use Rattle.mqtt5_publish.specs.Sound.{puback_reason_sound};

    ghost same = { Prim.search rules };

    ghost sound = { puback_reason_sound };
}

impl Exact for PubRelReason {
    ghost use Rattle.std.proofs.Common.{rules};
    ghost use Rattle.mqtt5_publish.specs.Sound.{pubrel_reason_sound};

    ghost same = { Prim.search rules };

    ghost sound = { pubrel_reason_sound };
}

impl Exact for PubAck {
    ghost use Rattle.std.proofs.Common.{rules};
    ghost use Rattle.mqtt5_publish.specs.Sound.{puback_sound};

    ghost same = { Prim.search rules };

    ghost sound = { puback_sound };
}

impl Exact for PubRec {
    ghost use Rattle.std.proofs.Common.{rules};
    ghost use Rattle.mqtt5_publish.specs.Sound.{pubrec_sound};

    ghost same = { Prim.search rules };

    ghost sound = { pubrec_sound };
}

impl Exact for PubRel {
    ghost use Rattle.std.proofs.Common.{rules};
    ghost use Rattle.mqtt5_publish.specs.Sound.{pubrel_sound};

    ghost same = { Prim.search rules };

    ghost sound = { pubrel_sound };
}

impl Exact for PubComp {
    ghost use Rattle.std.proofs.Common.{rules};
    ghost use Rattle.mqtt5_publish.specs.Sound.{pubcomp_sound};

    ghost same = { Prim.search rules };

    ghost sound = { pubcomp_sound };
}

impl Exact for PingReq {
    ghost use Rattle.std.proofs.Common.{rules};
    ghost use Rattle.mqtt5_publish.specs.Sound.{pingreq_sound};

    ghost same = { Prim.search rules };

    ghost sound = { pingreq_sound };
}

impl Exact for PingResp {
    ghost use Rattle.std.proofs.Common.{rules};
    ghost use Rattle.mqtt5_publish.specs.Sound.{pingresp_sound};

    ghost same = { Prim.search rules };

    ghost sound = { pingresp_sound };
}

impl Exact for PublishProperties {
    ghost use Rattle.std.proofs.Common.{rules};
    ghost use Rattle.mqtt5_publish.specs.Sound.{publish_properties_sound};

    ghost same = { Prim.search rules };

    ghost sound = { publish_properties_sound };
}

impl Exact for Publish {
    ghost use Rattle.std.proofs.Common.{rules};
    ghost use Rattle.mqtt5_publish.specs.Sound.{publish_sound};

    ghost same = { Prim.search rules };

    ghost sound = { publish_sound };
}
