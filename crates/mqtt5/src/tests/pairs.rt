//! Every state of an id with every packet and every request on it.

mod table;

use self::table::{ALIKE, STATES};
use super::walk::wrong_row;
use crate::mqttbytes::Error;
use std::alloc::Global;
use std::test::Fail;

/// The first of rows that isn't so, each in a new session of two ids after the calls.
fn wrong_of(alloc: Global, calls: &str, rows: &'static str) -> Result<&'static str, Error> {
    for row in rows.lines() {
        let wrong = wrong_row(alloc, 2, calls, row)?;
        if !wrong.is_empty() {
            return Ok(wrong);
        }
    }
    Ok("")
}

fn wrong_in(alloc: Global, state: &'static str) -> Result<&'static str, Error> {
    let (calls, rows) = state.split_once('\n').unwrap_or((state, ""));
    let wrong = wrong_of(alloc, calls, ALIKE)?;
    if wrong.is_empty() {
        return wrong_of(alloc, calls, rows);
    }
    Ok(wrong)
}

#[test]
fn every_pair(rt: HostRuntime) -> Result<(), Fail> {
    for state in STATES.split("\n\n") {
        let wrong = wrong_in(rt.alloc(), state)?;
        assert!(rt; wrong.is_empty(), "{wrong} in {state}");
    }
    Ok(())
}
