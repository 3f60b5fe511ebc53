//! Properties of an identifier and a value, and the property sets that they give.
#![tactic(auto)]

mod gathering;
mod making;
mod refusal;

pub use gathering::set_of;
pub use making::{bytes_property, number_property, user_property};
pub use refusal::Refusal;
