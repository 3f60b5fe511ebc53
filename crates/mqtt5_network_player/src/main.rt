//! The program of `./mqtt5 network`: it plays a script of what happens among a broker and its clients, and prints how
//! often each content was shown to each client.
#![tactic(auto)]

mod contents;
mod routed;
pub mod run;
mod script;

use mqtt5_scripts::{refuse_words, words, written_out};
use std::io;
use std::io::{BufWriter, Write};
use std::process::ExitCode;

/// Runs the program, and answers its exit status: 1 also where what is printed can't be written out.
fn print_all(rt: &HostRuntime, output: &mut impl Write) -> u8 {
    let status = match words(rt) {
        Ok(words) => run::run(rt.alloc(), words.as_slice(), &mut rt.reader(), output),
        Err(error) => refuse_words(&error, output),
    };
    written_out(output, status)
}

/// Prints through one buffer; where memory for that is refused, without.
fn main(rt: HostRuntime) -> ExitCode {
    let status = match BufWriter::new(rt.alloc(), io::writer(&rt)) {
        Ok(mut output) => print_all(&rt, &mut output),
        Err(_refused) => print_all(&rt, &mut io::writer(&rt)),
    };
    ExitCode::from(status)
}
