//! A script of `drive`: a step on each line.

ghost use Rattle.std.specs.Prelude.{◌≡◌, Some, codes};
ghost use Rattle.mqtt5_inflight.specs.declared.event.Request.TheVariants as requests;

use bytes::Bytes;
use mqtt5_base::QoS;
use mqtt5_drive::{Input, Step};
use mqtt5_publish::{PubAck, PubRec, PubRel, Publish};
use mqtt5_scripts::{Field, LineError, Script, split_word};
use mqtt5_session::Request;
use mqtt5_subscribe::{Filter, Subscribe, Unsubscribe};
use std::alloc::Global;

/// The steps of a run, in order.
#[derive(Debug, Drop)]
pub struct StepScript {
    pub steps: Vec<Step>,
}

impl Script for StepScript {
    fn new(alloc: Global) -> StepScript {
        StepScript {
            steps: Vec::new(alloc),
        }
    }

    fn add(&mut self, alloc: Global, line: &str) -> Result<(), LineError> {
        self.steps.push(parse_step(alloc, line)?)?;
        Ok(())
    }
}

/// A word, a moment and the word's fields, with one space between any two.
fn parse_step(alloc: Global, line: &str) -> Result<Step, LineError> {
    let (word, rest) = line.split_once(' ').ok_or(LineError::Bad)?;
    let (at, fields) = split_word(rest);
    let at = <u64 as Field>::parse(alloc, at)?;
    let input = match fields {
        Some(fields) => parse_input(alloc, word, fields)?,
        None => Input::Request(bare_request(word).ok_or(LineError::Bad)?),
    };
    Ok(Step { at, input })
}

/// The request of a word without fields.
fn bare_request(word: &str) -> Option<Request>
    ensures ping { word.now ≡ codes "ping" → result ≡ Some requests.PingReq }
    ensures bye { word.now ≡ codes "bye" → result ≡ Some requests.Disconnect }
{
    match word {
        "ping" => Some(Request::PingReq),
        "bye" => Some(Request::Disconnect),
        _ => None,
    }
}

/// The input of a word with fields.
fn parse_input(alloc: Global, word: &str, fields: &str) -> Result<Input, LineError> {
    match word {
        "in" => Ok(Input::Bytes(<Bytes as Field>::parse(alloc, fields)?)),
        _ => Ok(Input::Request(parse_request(alloc, word, fields)?)),
    }
}

fn parse_request(alloc: Global, word: &str, fields: &str) -> Result<Request, LineError> {
    match word {
        "pub" => Ok(Request::Publish(<Publish as Field>::parse(alloc, fields)?)),
        "sub" => parse_subscribe(alloc, fields),
        "unsub" => parse_unsubscribe(alloc, fields),
        "ack" => Ok(Request::PubAck(PubAck::new(<u16 as Field>::parse(alloc, fields)?, None))),
        "rec" => Ok(Request::PubRec(PubRec::new(<u16 as Field>::parse(alloc, fields)?, None))),
        "rel" => Ok(Request::PubRel(PubRel::new(<u16 as Field>::parse(alloc, fields)?, None))),
        _ => Err(LineError::Bad),
    }
}

/// The QOS and FILTER of a subscribe.
fn parse_subscribe(alloc: Global, fields: &str) -> Result<Request, LineError> {
    let (quality, path) = fields.split_once(' ').ok_or(LineError::Bad)?;
    let quality = <QoS as Field>::parse(alloc, quality)?;
    let path = <String as Field>::parse(alloc, path)?;
    let filter = Filter::new(alloc, path.as_str(), quality)?;
    Ok(Request::Subscribe(Subscribe::new(alloc, filter, None)?))
}

/// The FILTER of an unsubscribe.
fn parse_unsubscribe(alloc: Global, field: &str) -> Result<Request, LineError> {
    let path = <String as Field>::parse(alloc, field)?;
    let unsubscribe = Unsubscribe::new(alloc, path.as_str(), None)?;
    Ok(Request::Unsubscribe(unsubscribe))
}
