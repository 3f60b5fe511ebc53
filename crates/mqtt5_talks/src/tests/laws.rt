//! The laws of runs, which do nothing when they are called.

use mqtt5_base::front_laws;
use mqtt5_client::one_run;
use mqtt5_drive::{cutting, empty_needs_more, twice};
use std::test::Fail;

#[test]
fn laws(_rt: HostRuntime) -> Result<(), Fail> {
    front_laws();
    cutting();
    empty_needs_more();
    twice();
    one_run();
    Ok(())
}
