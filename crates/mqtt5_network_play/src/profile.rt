//! What a client of a network begins with.

use mqtt5_base::Sequence;
use mqtt5_network::Subscription;
use std::marker::Model;
use std::num::NonZeroU16;

/// What a client of a network begins with.
#[derive(Debug, Drop)]
pub struct Profile {
    /// The greatest packet identifier that the client uses.
    pub limit: NonZeroU16,
    /// The greatest one that the broker uses for what it sends to the client.
    pub sender_limit: NonZeroU16,
    /// The subscriptions that the broker has of the client.
    pub subscriptions: Sequence<Subscription>,
}

impl Model for Profile {
    ghost use Rattle.std.specs.Coded.{codes};
    ghost use Rattle.std.specs.NonZero.{non_zero_u16_get};
    ghost use Rattle.mqtt5_network.specs.contracts.subscription.Subscription as subscription;
    ghost use Rattle.mqtt5_network.specs.Network as model;

    ghost Value = { model.Profile };

    ghost coded = { Prim.hlevel (codes, subscription.the_row.coded) };

    ghost view = { λ a. record {
      limit = non_zero_u16_get a.limit;
      sender_limit = non_zero_u16_get a.sender_limit;
      subscriptions = a.subscriptions;
    } };
}
