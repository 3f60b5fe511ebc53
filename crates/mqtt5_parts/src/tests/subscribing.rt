//! Filters by themselves, and packets of them.

use super::{bytes_of, cut, digits_of, show, write_line};
use bytes::BytesMut;
use mqtt5_base::{Error, QoS, Sequence};
use mqtt5_subscribe::{Filter, RetainForwardRule, Subscribe, Unsubscribe, default_rule};
use std::alloc::Global;
use std::test::Fail;

/// Filters as they stand in a Subscribe, how many bytes are left when they are read, what they are written as, and a
/// Subscribe of them.
const FILTERS: &str =
    r##"0001232E0003612F6201 0 0001232E0003612F6201 Ok(Subscribe { pkid: 0, filters: [Filter { path: "#", qos: ExactlyOnce, nolocal: true, preserve_retain: true, retain_forward_rule: Never }, Filter { path: "a/b", qos: AtLeastOnce, nolocal: false, preserve_retain: false, retain_forward_rule: OnEverySubscribe }], properties: None })
- 0 - Ok(Subscribe { pkid: 0, filters: [], properties: None })
"##;

/// The two packets of "a/b".
const OF_ONE: &str =
    r#"Ok(Subscribe { pkid: 0, filters: [Filter { path: "a/b", qos: AtLeastOnce, nolocal: false, preserve_retain: false, retain_forward_rule: OnEverySubscribe }], properties: None })
Ok(Unsubscribe { pkid: 0, filters: ["a/b"], properties: None })
"#;

/// The digits of filters.
fn written(alloc: Global, filters: &Sequence<Filter>) -> Result<String, Error> {
    let mut buffer = BytesMut::new(alloc);
    for filter in filters {
        filter.write(&mut buffer)?;
    }
    digits_of(alloc, buffer.as_slice())
}

fn write_filters(alloc: Global, row: &str, text: &mut String) -> Result<(), Error> {
    let (digits, _answers) = cut(row);
    let mut stream = bytes_of(alloc, digits)?;
    let filters = Filter::read(alloc, &mut stream)?;
    let again = written(alloc, &filters)?;
    write!(text, "{digits} {} {again}", stream.len())?;
    show(
        text,
        Subscribe::new_many(alloc, filters.into_vec().into_iter(), None),
    )?;
    text.push('\n')?;
    Ok(())
}

#[test]
fn filters(rt: HostRuntime) -> Result<(), Fail> {
    let mut text = String::new(rt.alloc());
    for row in FILTERS.lines() {
        write_filters(rt.alloc(), row, &mut text)?;
    }
    assert!(rt; text.as_str() == FILTERS, "{text}");
    Ok(())
}

/// Writes the packets of "a/b".
fn write_of_one(alloc: Global, text: &mut String) -> Result<(), Error> {
    let filter = Filter::new(alloc, "a/b", QoS::AtLeastOnce)?;
    write_line(text, Subscribe::new(alloc, filter, None))?;
    write_line(text, Unsubscribe::new(alloc, "a/b", None))
}

#[test]
fn packets_of_one_filter(rt: HostRuntime) -> Result<(), Fail> {
    default_rule();
    let mut text = String::new(rt.alloc());
    write_of_one(rt.alloc(), &mut text)?;
    assert!(rt; text.as_str() == OF_ONE, "{text}");
    assert!(rt; RetainForwardRule::default() == RetainForwardRule::OnEverySubscribe);
    Ok(())
}
