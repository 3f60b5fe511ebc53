//! Why the broker refuses something, in its own words.

use mqtt5_base::Text;
use std::fmt;

/// A reason string, where the broker sends one (MQTT 5.0 sections 3.2.2.3.9, 3.4.2.2.2, 3.5.2.2.2, 3.9.2.1.2,
/// 3.11.2.1.2 and 3.14.2.2.3). It is shown in quotes, its control characters escaped.
#[derive(Debug, Drop)]
pub struct ReasonText {
    pub text: Option<Text>,
}

/// The reason string among properties, where there are some.
macro_rules! reason_in {
    ($properties:expr) => {
        match $properties {
            Some(mut set) => ReasonText {
                text: set.reason_string.take(),
            },
            None => ReasonText { text: None },
        }
    };
}

pub(crate) use reason_in;

impl fmt::Display for ReasonText {
    fn fmt<W: fmt::Write>(&self, f: &mut fmt::Formatter<W>) -> fmt::Result {
        match &self.text {
            Some(text) => write!(f, " ({text:?})"),
            None => Ok(()),
        }
    }
}
