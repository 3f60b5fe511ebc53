//! The program of `mqtt5 pub` and `mqtt5 sub`: a client that publishes or subscribes. Its standard input is what the broker
//! sends, and its standard output goes to the broker; messages and faults are told on standard error. After `relay` it hands on
//! what the broker sends, in the chunks of which the client then reads.
#![tactic(auto)]

mod ending;
mod format;
mod framed;
mod hiding;
mod json;
mod keeping;
mod kept_publishing;
mod kept_subscribing;
mod kept_talk;
mod properties;
mod publishing;
mod relay;
pub mod run;
mod subscribing;
mod timed;
mod words;

use mqtt5_talk::refuse_words;
use std::env::Env;
use std::process::ExitCode;
use std::{env, io};

/// The words after the program's name.
fn given_words(rt: &(impl Env + AllocGlobal)) -> io::Result<Vec<String>> {
    Ok(env::args(rt)?.skip(1).collect(rt.alloc())?)
}

fn main(rt: HostRuntime) -> ExitCode {
    let errors = rt.stderr();
    let mut log = io::writer(&errors);
    let mut writer = io::writer(&rt);
    let status = match given_words(&rt) {
        Ok(words) => run::run(
            &rt,
            words.as_slice(),
            &mut rt.reader(),
            &mut writer,
            &mut log,
        ),
        Err(error) => refuse_words(&error, &mut log),
    };
    ExitCode::from(status)
}
