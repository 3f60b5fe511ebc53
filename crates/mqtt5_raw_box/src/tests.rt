//! A box of a value that owns memory itself, taken apart and put together again.

use crate::RawBox;
use std::test::Fail;

#[test]
fn a_box_is_whole_again(rt: HostRuntime) -> Result<(), Fail> {
    let alloc = rt.alloc();
    let text = String::from_str(alloc, "kept")?;
    let raw_box = RawBox::of(Box::new(alloc, text)?);
    let kept = raw_box.into_box();
    assert_eq!(rt; kept.as_str(), "kept");
    Ok(())
}
