//! What the definitions promise, as contracts of functions with empty bodies.

ghost use Rattle.mqtt5_subscribe.specs.Laws.{IsDefaultRule};

/// The default of `RetainForwardRule` is `OnEverySubscribe`.
pub fn default_rule()
    ensures { IsDefaultRule }
{}
