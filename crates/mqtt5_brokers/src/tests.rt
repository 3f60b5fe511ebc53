//! Tests of a broker's crates: of what it makes of bytes (`broker`), of its sessions over packets (`sessions`), both as rows of text,
//! each walked by one function; of subscriptions and queues; of the network in code; and of the index of topic filters.

mod broker;
mod network;
mod sessions;
mod subscriptions;
mod topic_index;

/// What stands before the first mark of a text, and what behind it.
fn cut<'a>(text: &'a str, mark: char) -> (&'a str, &'a str) {
    text.split_once(mark).unwrap_or((text, ""))
}
