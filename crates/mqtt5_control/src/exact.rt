//! A clone of each type is the same value, and its `==` decides equality.

use crate::auth::{Auth, AuthProperties, AuthReasonCode};
use crate::connack::{ConnAck, ConnAckProperties, ConnectReturnCode};
use crate::disconnect::{Disconnect, DisconnectProperties, DisconnectReasonCode};
use mqtt5_base::Exact;

impl Exact for DisconnectReasonCode {
    ghost use Rattle.std.proofs.Common.{rules};
    ghost use Rattle.mqtt5_control.specs.Sound.{disconnect_reason_sound};

    ghost same = { Prim.search rules };

    ghost sound = { disconnect_reason_sound };
}

impl Exact for DisconnectProperties {
    ghost use Rattle.std.proofs.Common.{rules};
    ghost use Rattle.mqtt5_control.specs.Sound.{disconnect_properties_sound};

    ghost same = { Prim.search rules };

    ghost sound = { disconnect_properties_sound };
}

impl Exact for Disconnect {
    ghost use Rattle.std.proofs.Common.{rules};
    ghost use Rattle.mqtt5_control.specs.Sound.{disconnect_sound};

    ghost same = { Prim.search rules };

    ghost sound = { disconnect_sound };
}

impl Exact for AuthReasonCode {
    ghost use Rattle.std.proofs.Common.{rules};
    ghost use Rattle.mqtt5_control.specs.Sound.{auth_reason_sound};

    ghost same = { Prim.search rules };

    ghost sound = { auth_reason_sound };
}

impl Exact for AuthProperties {
    ghost use Rattle.std.proofs.Common.{rules};
    ghost use Rattle.mqtt5_control.specs.Sound.{auth_properties_sound};

    ghost same = { Prim.search rules };

    ghost sound = { auth_properties_sound };
}

impl Exact for Auth {
    ghost use Rattle.std.proofs.Common.{rules};
    ghost use Rattle.mqtt5_control.specs.Sound.{auth_sound};

    ghost same = { Prim.search rules };

    ghost sound = { auth_sound };
}

impl Exact for ConnectReturnCode {
    ghost use Rattle.std.proofs.Common.{rules};
    ghost use Rattle.mqtt5_control.specs.Sound.{connack_reason_sound};

    ghost same = { Prim.search rules };

    ghost sound = { connack_reason_sound };
}

impl Exact for ConnAckProperties {
    ghost use Rattle.std.proofs.Common.{rules};
    ghost use Rattle.mqtt5_control.specs.Sound.{connack_properties_sound};

    ghost same = { Prim.search rules };

    ghost sound = { connack_properties_sound };
}

impl Exact for ConnAck {
    ghost use Rattle.std.proofs.Common.{rules};
    ghost use Rattle.mqtt5_control.specs.Sound.{connack_sound};

    ghost same = { Prim.search rules };

    ghost sound = { connack_sound };
}
