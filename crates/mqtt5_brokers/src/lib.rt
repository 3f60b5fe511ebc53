//! Tests of a broker and of the crates that it stands on, most of them as rows of text. It has nothing else.
#![tactic(auto)]

#[cfg(test)]
mod tests;
