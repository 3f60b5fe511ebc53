//! Subscriptions that are taken in and out, and what is put into a queue under them, as MQTT 5.0 has it.

use bytes::Bytes;
use mqtt5_base::{Error, QoS, Sequence, Text};
use mqtt5_network::Subscription;
use mqtt5_publish::Publish;
use mqtt5_router::{granted_for, route, subscribe_all, unsubscribe_all};
use mqtt5_subscribe::{Filter, SubscribeReasonCode, UnsubAckReason};
use std::alloc::Global;
use std::collections::VecDeque;
use std::test::Fail;

/// A publish of "x" to a topic, as it comes from a client: with an id, with retain, and sent again.
fn message(alloc: Global, topic: &str, qos: QoS) -> Result<Publish, Error> {
    let mut publish = Publish::new(alloc, topic, qos, Bytes::from_static(b"x"), None)?;
    publish.pkid = 7;
    publish.retain = true;
    publish.dup = true;
    Ok(publish)
}

/// A filter, with No Local or without.
fn filter(alloc: Global, path: &str, qos: QoS, nolocal: bool) -> Result<Filter, Error> {
    let mut filter = Filter::new(alloc, path, qos)?;
    filter.nolocal = nolocal;
    Ok(filter)
}

/// `a/+` at QoS 1, `a/b` at QoS 2 with No Local, and `#` at QoS 0: the subscriptions of a client that asked for them, and
/// whether the codes say so (3.9.3).
fn three(alloc: Global) -> Result<(Vec<Subscription>, bool), Error> {
    let mut filters = Sequence::new(alloc);
    filters.push(filter(alloc, "a/+", QoS::AtLeastOnce, false)?)?;
    filters.push(filter(alloc, "a/b", QoS::ExactlyOnce, true)?)?;
    filters.push(filter(alloc, "#", QoS::AtMostOnce, false)?)?;
    let mut subscriptions = Vec::new(alloc);
    let codes = subscribe_all(alloc, &mut subscriptions, None, filters.as_slice())?;
    let said = codes.as_slice()
        == [
            SubscribeReasonCode::Success(QoS::AtLeastOnce),
            SubscribeReasonCode::Success(QoS::ExactlyOnce),
            SubscribeReasonCode::Success(QoS::AtMostOnce),
        ]
        .as_slice();
    Ok((subscriptions, said))
}

/// What three subscriptions grant to a message.
fn grants(alloc: Global, own: bool, topic: &str) -> Result<Option<QoS>, Error> {
    let (subscriptions, _said) = three(alloc)?;
    let publish = message(alloc, topic, QoS::ExactlyOnce)?;
    Ok(granted_for(own, subscriptions.as_slice(), &publish))
}

/// What goes into a queue of a message: its QoS, its id, its `dup` and its `retain`.
fn queued(
    alloc: Global,
    own: bool,
    topic: &str,
    qos: QoS,
) -> Result<Option<(QoS, u16, bool, bool)>, Error> {
    let (subscriptions, _said) = three(alloc)?;
    let publish = message(alloc, topic, qos)?;
    let mut queue = VecDeque::new(alloc);
    route(alloc, own, subscriptions.as_slice(), &publish, &mut queue)?;
    Ok(match queue.pop_front() {
        Some(first) => Some((first.qos, first.pkid, first.dup, first.retain)),
        None => None,
    })
}

/// Two filters are taken out, one of them twice: the reasons (3.11.3), and what is granted to `a/b` then.
fn ended(alloc: Global) -> Result<(bool, Option<QoS>), Error> {
    let (mut subscriptions, _said) = three(alloc)?;
    let mut filters = Sequence::new(alloc);
    filters.push(Text::from_str(alloc, "a/b")?)?;
    filters.push(Text::from_str(alloc, "a/b")?)?;
    filters.push(Text::from_str(alloc, "a")?)?;
    let reasons = unsubscribe_all(alloc, &mut subscriptions, filters.as_slice())?;
    let said = reasons.as_slice()
        == [
            UnsubAckReason::Success,
            UnsubAckReason::NoSubscriptionExisted,
            UnsubAckReason::NoSubscriptionExisted,
        ]
        .as_slice();
    let publish = message(alloc, "a/b", QoS::ExactlyOnce)?;
    Ok((said, granted_for(false, subscriptions.as_slice(), &publish)))
}

/// A filter is asked for once more, with another QoS (3.8.4), and then taken out: what is granted to `a/c` each time.
fn replaced(alloc: Global) -> Result<[Option<QoS>; 2], Error> {
    let (mut subscriptions, _said) = three(alloc)?;
    let publish = message(alloc, "a/c", QoS::ExactlyOnce)?;
    let mut filters = Sequence::new(alloc);
    filters.push(filter(alloc, "a/+", QoS::ExactlyOnce, false)?)?;
    let codes = subscribe_all(alloc, &mut subscriptions, None, filters.as_slice())?;
    drop(codes);
    let greater = granted_for(false, subscriptions.as_slice(), &publish);
    let mut paths = Sequence::new(alloc);
    paths.push(Text::from_str(alloc, "a/+")?)?;
    let reasons = unsubscribe_all(alloc, &mut subscriptions, paths.as_slice())?;
    drop(reasons);
    Ok([
        greater,
        granted_for(false, subscriptions.as_slice(), &publish),
    ])
}

#[test]
fn subscriptions(rt: HostRuntime) -> Result<(), Fail> {
    let alloc = rt.alloc();
    assert_eq!(rt; three(alloc).map(|both| both.1), Ok(true));
    // The greatest QoS of those that match; its own not by No Local (3.3.4, 3.8.3.1).
    assert_eq!(rt; grants(alloc, false, "a/b"), Ok(Some(QoS::ExactlyOnce)));
    assert_eq!(rt; grants(alloc, true, "a/b"), Ok(Some(QoS::AtLeastOnce)));
    assert_eq!(rt; grants(alloc, false, "c"), Ok(Some(QoS::AtMostOnce)));
    // A wildcard doesn't match `$` at the front (4.7.2).
    assert_eq!(rt; grants(alloc, false, "$c"), Ok(None));
    assert_eq!(rt; ended(alloc), Ok((true, Some(QoS::AtLeastOnce))));
    assert_eq!(rt;
        replaced(alloc),
        Ok([Some(QoS::ExactlyOnce), Some(QoS::AtMostOnce)])
    );
    Ok(())
}

#[test]
fn queues(rt: HostRuntime) -> Result<(), Fail> {
    let alloc = rt.alloc();
    // At the lesser QoS, with no id yet, sent for the first time, and not as retained (3.3.1, 3.8.4).
    assert_eq!(rt;
        queued(alloc, false, "a/b", QoS::AtLeastOnce),
        Ok(Some((QoS::AtLeastOnce, 0, false, false)))
    );
    assert_eq!(rt;
        queued(alloc, true, "a/c", QoS::ExactlyOnce),
        Ok(Some((QoS::AtLeastOnce, 0, false, false)))
    );
    assert_eq!(rt; queued(alloc, false, "$c", QoS::ExactlyOnce), Ok(None));
    Ok(())
}
