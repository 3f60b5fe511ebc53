//! A clone of each type of a Connect is the same value, and its `==` decides equality.

use crate::connect::{Connect, ConnectProperties};
use crate::login::Login;
use crate::will::{LastWill, LastWillProperties};
use mqtt5_base::Exact;

impl Exact for ConnectProperties {
    ghost use Rattle.std.proofs.Common.{rules};
    ghost use Rattle.mqtt5_connect.specs.Sound.{connect_properties_sound};

    ghost same = { Prim.search rules };

    ghost sound = { connect_properties_sound };
}

impl Exact for Connect {
    ghost use Rattle.std.proofs.Common.{rules};
    ghost use Rattle.mqtt5_connect.specs.Sound.{connect_sound};

    ghost same = { Prim.search rules };

    ghost sound = { connect_sound };
}

impl Exact for LastWillProperties {
    ghost use Rattle.std.proofs.Common.{rules};
    ghost use Rattle.mqtt5_connect.specs.Sound.{will_properties_sound};

    ghost same = { Prim.search rules };

    ghost sound = { will_properties_sound };
}

impl Exact for LastWill {
    ghost use Rattle.std.proofs.Common.{rules};
    ghost use Rattle.mqtt5_connect.specs.Sound.{will_sound};

    ghost same = { Prim.search rules };

    ghost sound = { will_sound };
}

impl Exact for Login {
    ghost use Rattle.std.proofs.Common.{rules};
    ghost use Rattle.mqtt5_connect.specs.Sound.{login_sound};

    ghost same = { Prim.search rules };

    ghost sound = { login_sound };
}
