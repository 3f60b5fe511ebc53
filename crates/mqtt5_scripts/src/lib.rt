//! What the programs that run scripts share: a script's lines and their fields, what is printed of publishes and of
//! faults, and how a program ends.
#![tactic(auto)]

mod ending;
mod fields;
mod printing;
mod script;

pub use ending::{
    Status, refuse_words, words, write_ending, write_memory_fault, write_refusal, write_usage,
    written_out,
};
pub use fields::{Field, LineError, split_word};
pub use printing::{write_fault, write_hex, write_message};
pub use script::{Script, ScriptError, read_script};
