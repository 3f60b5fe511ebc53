//! Worked values of what packets, settings and sessions are made of, and the tests that walk them. It has tests alone.
#![tactic(auto)]

#[cfg(test)]
mod tests;
