//! Clients, pipes and talks on worked bytes, and the tests that walk them. Beside its tests it has an example alone.
#![tactic(auto)]

pub mod first;
#[cfg(test)]
mod tests;
