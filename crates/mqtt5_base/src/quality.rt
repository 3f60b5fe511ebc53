//! Quality of service.

/// How often a publish is delivered, ordered as its numbers 0, 1 and 2 (MQTT 5.0 section 4.3).
#[derive(Debug, Clone, Copy, Default, PartialEq, Eq, PartialOrd, Ord)]
pub enum QoS {
    #[default]
    AtMostOnce = 0,
    AtLeastOnce = 1,
    ExactlyOnce = 2,
}
