//! What both programs do alike.

ghost use Rattle.std.specs.Prelude.{◌≡◌, ◌<◌, ◌⊎◌, [], cond, is_ok};
ghost use Rattle.mqtt5_client.specs.Client.{IsReady};
ghost use Rattle.mqtt5_session.specs.Session.{fresh};

use mqtt5_client::Client;
use std::alloc::Global;
use std::fmt::Display;
use std::io;
use std::io::Write;

/// A client of a new session with so many identifiers, without limits on packets. Takes no memory.
pub fn new_client(alloc: Global, limit: u16, manual_acks: bool) -> Client
    requires { 0 < limit }
    ensures state { result.state ≡ fresh limit manual_acks }
    ensures empty { (result.input.items ≡ []) × (result.output.items ≡ []) }
    ensures ready { IsReady result }
{
    match Client::new(alloc, limit, manual_acks) {
        Ok(client) => client,
        Err(_) => unreachable!(),
    }
}

/// Tells the log what the parser says of the words, and answers the program's exit status: 0 where help was asked for, 2
/// where the words are refused.
pub fn refuse<E: Write>(error: &clap::Error, log: &mut E) -> u8
    ensures { (result ≡ 0) ⊎ (result ≡ 2) }
{
    let _ = write!(log, "{error}");
    if error.use_stderr() { 2 } else { 0 }
}

/// Tells the log that the words can't be had, since one isn't UTF-8 or memory ran out, and answers the exit status 2.
pub fn refuse_words<E: Write>(error: &io::Error, log: &mut E) -> u8
    ensures { result ≡ 2 }
{
    let _ = writeln!(log, "error: the words can't be read: {error}");
    2
}

/// Tells the log why a talk stopped, and answers the exit status: 0 where it is done, 1 after a fault.
pub fn tell<T: Display + Drop, E: Write>(ended: Result<(), T>, log: &mut E) -> u8
    ensures { result ≡ cond (is_ok ended) 0 1 }
{
    match ended {
        Ok(()) => 0,
        Err(trouble) => {
            let _ = writeln!(log, "error: {trouble}");
            1
        }
    }
}
