//! Scripts of a client and its broker: what happens, a line each.

use mqtt5_publish::Publish;
use mqtt5_scripts::{Field, LineError, Script, split_word};
use mqtt5_streams::ByteEvent;
use mqtt5_world::WorldEvent;
use std::alloc::Global;

/// How many bytes may move at once.
const MOST_MOVED: u64 = 1_000_000;

/// What happens in a world, and whether it is then played to its end.
#[derive(Debug, Drop)]
pub struct WorldScript {
    pub events: Vec<WorldEvent>,
    pub settles: bool,
}

impl Script for WorldScript {
    fn new(alloc: Global) -> WorldScript {
        WorldScript {
            events: Vec::new(alloc),
            settles: false,
        }
    }

    /// An event, or `settle`, after which no line says anything.
    fn add(&mut self, alloc: Global, line: &str) -> Result<(), LineError> {
        match line {
            _ if self.settles => Err(LineError::Bad),
            "settle" => {
                self.settles = true;
                Ok(())
            }
            _ => {
                self.events.push(parse_event(alloc, line)?)?;
                Ok(())
            }
        }
    }
}

/// What happens over streams of bytes.
#[derive(Debug, Drop)]
pub struct ByteScript {
    pub events: Vec<ByteEvent>,
}

impl Script for ByteScript {
    fn new(alloc: Global) -> ByteScript {
        ByteScript {
            events: Vec::new(alloc),
        }
    }

    fn add(&mut self, alloc: Global, line: &str) -> Result<(), LineError> {
        self.events.push(parse_byte_event(alloc, line)?)?;
        Ok(())
    }
}

/// A word and its fields, with one space between any two.
fn parse_event(alloc: Global, line: &str) -> Result<WorldEvent, LineError> {
    match split_word(line) {
        ("pub", Some(fields)) => {
            let publish = <Publish as Field>::parse(alloc, fields)?;
            Ok(WorldEvent::Publish(publish))
        }
        ("loss", Some(max)) => {
            let max = <u16 as Field>::parse(alloc, max)?;
            Ok(WorldEvent::Loss(Some(max)))
        }
        ("loss", None) => Ok(WorldEvent::Loss(None)),
        ("up", None) => Ok(WorldEvent::Up),
        ("down", None) => Ok(WorldEvent::Down),
        _ => Err(LineError::Bad),
    }
}

/// A word and its fields, with one space between any two.
fn parse_byte_event(alloc: Global, line: &str) -> Result<ByteEvent, LineError> {
    match split_word(line) {
        ("pub", Some(fields)) => {
            let publish = <Publish as Field>::parse(alloc, fields)?;
            Ok(ByteEvent::Publish(publish))
        }
        ("loss", Some(max)) => {
            let max = <u16 as Field>::parse(alloc, max)?;
            Ok(ByteEvent::Loss(Some(max)))
        }
        ("loss", None) => Ok(ByteEvent::Loss(None)),
        ("up", Some(count)) => Ok(ByteEvent::Up(parse_moved(alloc, count)?)),
        ("down", Some(count)) => Ok(ByteEvent::Down(parse_moved(alloc, count)?)),
        _ => Err(LineError::Bad),
    }
}

/// A number of bytes that move.
fn parse_moved(alloc: Global, field: &str) -> Result<usize, LineError> {
    let number = <u64 as Field>::parse(alloc, field)?;
    if number > MOST_MOVED {
        return Err(LineError::Bad);
    }
    Ok(number as usize)
}
