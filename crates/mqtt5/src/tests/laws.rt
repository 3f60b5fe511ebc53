//! The laws of sessions, worlds and streams, which do nothing when they are called.

use crate::{
    answers_law, any_order_law, arrival_law, counts_law, delivery_law, ledger_law, progress_law,
    reduction_law, tokens_law, twin_law, wire_law,
};
use mqtt5_progress::{late_delivery_law, late_law, late_progress_law, subscribers_law};
use std::test::Fail;

#[test]
fn laws(_rt: HostRuntime) -> Result<(), Fail> {
    ledger_law();
    tokens_law();
    delivery_law();
    twin_law();
    progress_law();
    any_order_law();
    late_law();
    late_delivery_law();
    late_progress_law();
    subscribers_law();
    wire_law();
    reduction_law();
    counts_law();
    answers_law();
    arrival_law();
    Ok(())
}
