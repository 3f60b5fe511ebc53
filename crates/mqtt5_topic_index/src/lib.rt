//! Which numbers stand under the topic filters that a topic matches (MQTT 5.0 section 4.7), found without a look at all of them.
//!
//! Each filter has a mark, which the levels before its first wildcard make. A topic that matches the filter begins with these levels:
//! so of a topic the marks of its first levels are made, none, one, two and so on, and what stands under one of these is found. That
//! may be more than what stands under filters that it matches, and is never less. (A topic that starts with `$` matches none, 4.7.2.)
#![tactic(auto)]

mod index;
mod marks;

pub use index::TopicIndex;
pub use marks::mark_of;
