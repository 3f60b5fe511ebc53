//! What is found by topics, under the filters of the examples of MQTT 5.0 (sections 4.7.1.2 and 4.7.1.3).

use mqtt5_topic_index::{TopicIndex, mark_of};
use std::alloc::{AllocError, Global};
use std::test::Fail;

/// The filters. Each stands for its place. The last has more bytes than count.
const FILTERS: [&str; 11] = [
    "sport/tennis/player1/#",
    "sport/#",
    "#",
    "sport/tennis/+",
    "sport/+",
    "+/tennis/#",
    "+/+",
    "/+",
    "sport/tennis",
    "sport/+/player1",
    "a/0123456789012345678901234567890123456789012345678901234567890123456789012345678901234567890123456789012345678901234567890123456789/b/+",
];

/// A topic that matches the last, and one that differs in its second level, behind the bytes that count.
const LONG: &str =
    "a/0123456789012345678901234567890123456789012345678901234567890123456789012345678901234567890123456789012345678901234567890123456789/b/c";

const OTHER: &str =
    "a/0123456789012345678901234567890123456789012345678901234567890123456789012345678901234567890123456789012345678901234567890123456780/b/c";

/// Topics, places of filters, and whether these are found: each that matches is (4.7.1). None is that begins with other levels, which
/// is what the marks are for, among the bytes that count.
const ROWS: [(&str, usize, bool); 32] = [
    ("sport/tennis/player1", 0, true),
    ("sport/tennis/player1/ranking", 0, true),
    ("sport/tennis/player1/score/wimbledon", 0, true),
    ("sport/tennis/player10", 0, false),
    ("sport/tennis/player2", 0, false),
    ("sport", 1, true),
    ("sport/tennis/player1", 1, true),
    ("sports", 1, false),
    ("spor", 1, false),
    ("music/sport", 1, false),
    ("sport", 2, true),
    ("/", 2, true),
    ("sport/tennis", 8, true),
    ("sport/tenni", 8, false),
    ("sport/tenniss", 8, false),
    ("sport", 8, false),
    ("sport/tennis/player1", 9, true),
    ("music/tennis/player1", 9, false),
    (LONG, 10, true),
    (OTHER, 10, true),
    ("b/0123456789", 10, false),
    ("sport/tennis/player1", 3, true),
    ("sport/tennis/player2", 3, true),
    ("sport/golf/player2", 3, false),
    ("sport/", 4, true),
    ("/sport", 4, false),
    ("sport/tennis/player1/ranking", 5, true),
    ("tennis/tennis", 5, true),
    ("/finance", 6, true),
    ("/finance", 7, true),
    ("/", 7, true),
    ("finance/", 7, false),
];

fn made(alloc: Global) -> Result<TopicIndex, AllocError> {
    let mut index = TopicIndex::new(alloc);
    for i in 0..FILTERS.len() {
        index.insert(mark_of(FILTERS[i].as_bytes()), i)?;
    }
    Ok(index)
}

/// The topic of the first row that isn't so, if there is one.
fn first_wrong(alloc: Global) -> Result<Option<&'static str>, AllocError> {
    let index = made(alloc)?;
    for (topic, number, there) in ROWS {
        if index.find(alloc, topic.as_bytes())?.contains(&number) != there {
            return Ok(Some(topic));
        }
    }
    Ok(None)
}

/// What is found in an index without numbers, and once one of two numbers is taken from a filter that both stood under, one of them
/// twice, and the other from another filter.
fn left(alloc: Global) -> Result<[bool; 5], AllocError> {
    let nothing = TopicIndex::new(alloc);
    let mut index = made(alloc)?;
    let mark = mark_of("sport/#".as_bytes());
    index.insert(mark, usize::MAX)?;
    index.insert(mark, 1)?;
    let before = index.find(alloc, "sport/x".as_bytes())?;
    index.remove(mark, 1);
    index.remove(mark_of("music/#".as_bytes()), usize::MAX);
    let after = index.find(alloc, "sport/x".as_bytes())?;
    Ok([
        nothing.find(alloc, "sport/x".as_bytes())?.is_empty(),
        before.contains(&1),
        before.contains(&usize::MAX),
        after.contains(&1),
        after.contains(&usize::MAX),
    ])
}

#[test]
fn found(rt: HostRuntime) -> Result<(), Fail> {
    let alloc = rt.alloc();
    assert_eq!(rt; first_wrong(alloc), Ok(None));
    assert_eq!(rt; left(alloc), Ok([true, true, true, false, true]));
    Ok(())
}
