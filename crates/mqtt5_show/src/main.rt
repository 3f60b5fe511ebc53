//! The program of `mqtt5 show`: it reads the bytes of one direction of a connection from its standard input, and prints
//! each packet as a line, of text or of JSON.
#![tactic(auto)]

mod capture;
mod connecting;
mod digits;
mod ending;
mod field;
mod json;
mod meaning;
mod packet;
mod publishing;
pub mod run;
mod screen;
mod subscribing;
mod value;
mod words;

use std::env::Env;
use std::io::{BufWriter, Write};
use std::process::ExitCode;
use std::{env, io};

/// The words after the program's name.
fn given_words(rt: &(impl Env + AllocGlobal)) -> io::Result<Vec<String>> {
    Ok(env::args(rt)?.skip(1).collect(rt.alloc())?)
}

/// Runs the program, and answers its exit status: 1 also where what is printed can't be written out.
fn print_all(rt: &HostRuntime, output: &mut impl Write) -> u8 {
    let status = match given_words(rt) {
        Ok(words) => run::run(rt.alloc(), words.as_slice(), &mut rt.reader(), output),
        Err(error) => run::refuse_words(&error, output),
    };
    match output.flush() {
        Ok(()) => status,
        Err(_failed) => 1,
    }
}

/// Prints through one buffer; where memory for that is refused, without.
fn main(rt: HostRuntime) -> ExitCode {
    let status = match BufWriter::new(rt.alloc(), io::writer(&rt)) {
        Ok(mut output) => print_all(&rt, &mut output),
        Err(_refused) => print_all(&rt, &mut io::writer(&rt)),
    };
    ExitCode::from(status)
}
