//! Words and scripts, and what is printed.

use crate::bench::{FRAMES, try_vectors};
use crate::run::run;
use std::alloc::{AllocError, Global};
use std::io;
use std::io::{ErrorKind, Read, Write};
use std::test::Fail;

/// The lines of a publish of QoS 1 and its ack.
const ACKED: &str = "out 320a0003612f620001006869\nsent Publish 1\ngot PubAck 1\ninflight 0\n";

/// The vectors, where each is what it says.
const VECTORS: &str = "V1 ok\nV2 ok\nV3 ok\nV4 ok\nV5 ok\nV6 ok\nV7 ok\nV8 ok\nV9 ok\nV10 ok\n\
    V11 ok\nV12 ok\nV13 ok\nV14 ok\nV15 ok\nV16 ok\nV17 ok\nV18 ok\nV19 ok\nV20 ok\n\
    V21 ok\nV22 ok\nV23 ok\nV24 ok\nV25 ok\nV26 ok\nV27 ok\nV28 ok\nV29 ok\nV30 ok\n\
    V31 ok\nV32 ok\nV33 ok\nV34 ok\nV35 ok\nV36 ok\n";

const USAGE: &str =
    "usage: mqtt5 drive LIMIT | mqtt5 world LIMIT | mqtt5 bytes LIMIT | mqtt5 bench | mqtt5 network\n";

/// A script, what `drive 10` prints of it, and the status.
const SCRIPTS: &[(&str, &str, u8)] = &[
    ("pub 0 1 612f62 6869\nin 1 40\nin 1 0200\nin 1 01", ACKED, 0),
    ("pub 0 1 612f62 6869\nin 1 40020001\n", ACKED, 0),
    (
        "pub 0 0 61 -\n",
        "out 300400016100\nsent Publish 0\ninflight 0\n",
        0,
    ),
    (
        "in 1 40020001\n",
        "out -\ngot PubAck 1\ninflight 0\nfault S2 1\n",
        1,
    ),
    (
        "in 1 300400016180\n",
        "out -\ninflight 0\nfault S7 E16\n",
        1,
    ),
    ("", "out -\ninflight 0\n", 0),
    (
        "pub 0 2 61 -\n",
        "out 3406000161000100\nsent Publish 1\ninflight 1\n",
        0,
    ),
    (
        "in 1 320700016100070078\n",
        "out 40020007\ngot Publish 7 61 78\nsent PubAck 7\ninflight 0\n",
        0,
    ),
    (
        "pub 00 001 612F62 6869",
        "out 320a0003612f620001006869\nsent Publish 1\ninflight 1\n",
        0,
    ),
    (
        "pub 0 0 - -\n",
        "out 3003000000\nsent Publish 0\ninflight 0\n",
        0,
    ),
    ("in 18446744073709551615 -\n", "out -\ninflight 0\n", 0),
    ("\n\nin 1 -\n\nin 1 4\n\npub\n", "line 5: bad\n", 2),
    ("ping 1\n", "out c000\nsent PingReq\ninflight 0\n", 0),
    ("ack 0 7\n", "out 40020007\nsent PubAck 7\ninflight 0\n", 0),
    (
        "ack 00 065535\n",
        "out 4002ffff\nsent PubAck 65535\ninflight 0\n",
        0,
    ),
    ("rec 0 8\n", "out 50020008\nsent PubRec 8\ninflight 0\n", 0),
    ("rel 0 1\n", "out 62020001\nsent PubRel 1\ninflight 1\n", 0),
    ("rel 0 11\n", "out -\ninflight 0\nfault S2 11\n", 1),
    (
        "pub 0 2 61 -\nrel 0 1\n",
        "out 3406000161000100\nsent Publish 1\ninflight 1\nfault S1\n",
        1,
    ),
    (
        "sub 0 2 612F62\n",
        "out 82090001000003612f6202\nsent Subscribe 1\ninflight 0\n",
        0,
    ),
    (
        "sub 0 1 612f62\nunsub 0 612f62\nping 0\nbye 0\n",
        "out 82090001000003612f6201a2080002000003612f62c000e000\nsent Subscribe 1\nsent Unsubscribe 2\nsent PingReq\nsent Disconnect\ninflight 0\n",
        0,
    ),
    (
        "in 1 30080001610323000178\nin 2 300700000323000179\nin 3 32090000000503230002\nin 4 7a\n",
        "out e0028200\ngot Publish 0 61 78\ngot Publish 0 61 79\ngot Publish 5 - 7a\nsent Disconnect\ninflight 0\n",
        0,
    ),
    (
        "in 1 340700016100070078\nin 2 62020007\nin 3 62020007\n",
        "out 5002000770020007700400079200\ngot Publish 7 61 78\nsent PubRec 7\ngot PubRel 7\nsent PubComp 7\ngot PubRel 7\nsent PubComp 7\ninflight 0\n",
        0,
    ),
    (
        "in 0 340700016100070078\nin 0 340700016100070078\n",
        "out 5002000750020007\ngot Publish 7 61 78\nsent PubRec 7\nsent PubRec 7\ninflight 0\n",
        0,
    ),
    (
        "in 1 50020007\n",
        "out -\ngot PubRec 7\ninflight 0\nfault S2 7\n",
        1,
    ),
    (
        "in 1 70020007\n",
        "out -\ngot PubComp 7\ninflight 0\nfault S2 7\n",
        1,
    ),
    (
        "in 1 900400020001b00400030000\n",
        "out -\ngot SubAck 2\ngot UnsubAck 3\ninflight 0\n",
        0,
    ),
    (
        "ping 0\nin 1 d000\nping 2\n",
        "out c000c000\nsent PingReq\ngot PingResp\nsent PingReq\ninflight 0\n",
        0,
    ),
    (
        "ping 0\nping 0\n",
        "out c000\nsent PingReq\ninflight 0\nfault S3\n",
        1,
    ),
    (
        "in 0 2006000003210002\npub 0 1 61 -\npub 0 1 61 -\npub 0 1 61 -\n",
        "out 32060001610001003206000161000200\ngot ConnAck\nsent Publish 1\nsent Publish 2\nsent AwaitAck 1\ninflight 2\n",
        0,
    ),
    (
        "in 0 2003008500\n",
        "out -\ngot ConnAck\ninflight 0\nfault S11\n",
        1,
    ),
    (
        "in 0 e0028200\n",
        "out -\ngot Disconnect\ninflight 0\nfault S10\n",
        1,
    ),
    ("in 0 f0021800\n", "out -\ngot Auth\ninflight 0\n", 0),
    (
        "in 0 100e00044d5154540502003c00000163\n",
        "out -\ngot Connect\ninflight 0\nfault S4\n",
        1,
    ),
    (
        "in 0 c000\n",
        "out -\ngot PingReq\ninflight 0\nfault S4\n",
        1,
    ),
    (
        "in 0 82090002000003612f6201\n",
        "out -\ngot Subscribe 2\ninflight 0\nfault S4\n",
        1,
    ),
    (
        "in 0 a2080003000003612f62\n",
        "out -\ngot Unsubscribe 3\ninflight 0\nfault S4\n",
        1,
    ),
];

/// The words, a script, what they print of it, and the status.
const SCRIPTS_OF_FEW: &[(&str, &str, &str, u8)] = &[
    (
        "drive 1",
        "pub 0 2 61 78\npub 0 2 62 79\nin 1 50020001\nin 2 70020001\n",
        "out 34070001610001007862020001340700016200010079\nsent Publish 1\nsent AwaitAck 1\ngot PubRec 1\nsent PubRel 1\ngot PubComp 1\nsent Publish 1\ninflight 1\n",
        0,
    ),
    (
        "drive 1",
        "pub 0 1 61 -\npub 0 1 61 -\npub 0 1 61 -\n",
        "out 3206000161000100\nsent Publish 1\nsent AwaitAck 1\ninflight 1\nfault S1\n",
        1,
    ),
    (
        "drive 1",
        "pub 0 1 61 -\npub 0 1 61 -\nping 0\nping 0\n",
        "out 3206000161000100c000\nsent Publish 1\nsent AwaitAck 1\nsent PingReq\ninflight 1\nfault S5\n",
        1,
    ),
    (
        "drive 2",
        "in 0 62020001\n",
        "out 700400019200\ngot PubRel 1\nsent PubComp 1\ninflight 0\n",
        0,
    ),
    (
        "drive 2",
        "pub 0 1 61 78\nin 1 4002000150020001\n",
        "out 320700016100010078\nsent Publish 1\ngot PubAck 1\ngot PubRec 1\ninflight 0\nfault S2 1\n",
        1,
    ),
];

/// Lines that say nothing.
const BAD_LINES: &[&str] = &[
    "pub 0 3 61 -",
    "in 18446744073709551616 -",
    "in +1 -",
    "in  1 -",
    "in 1  -",
    "in 1 - ",
    "in\t1 -",
    "in 1 -\r",
    "in 1 -40",
    "in 1 40-",
    "in 1 4g",
    "in 1 ",
    "in  -",
    "in 1",
    "in",
    " ",
    "In 1 -",
    "pub 0 256 61 -",
    "pub 0 1 61",
    "pub 0 1 ff -",
    "pub 0 1 61 - -",
    "ping",
    "ping ",
    "ping 0 ",
    "ping  0",
    "ping +1",
    "ping 18446744073709551616",
    "Ping 0",
    "hop 0",
    "hop 0 1",
    "bye 0 1",
    "ack 0 65536",
    "ack 0",
    "ack 0 ",
    "ack 0 +7",
    "ack 0 -",
    "rec 0",
    "rec 0 7 ",
    "rel 0",
    "rel 0 1 2",
    "sub 0 3 61",
    "sub 0 1 6",
    "sub 0 1",
    "sub 0 1 ff",
    "sub 0 1 61 62",
    "sub 0 256 61",
    "unsub 0 ff",
    "unsub 0",
    "unsub 0 ",
    "unsub 0 61 62",
];

/// Words, and what the program prints on them where each read fails.
const WORDS: &[(&str, &str, u8)] = &[
    ("drive 0", USAGE, 2),
    ("drive 65536", USAGE, 2),
    ("drive +1", USAGE, 2),
    ("drive", USAGE, 2),
    ("fly", USAGE, 2),
    ("", USAGE, 2),
    ("drive ", USAGE, 2),
    ("drive 10 10", USAGE, 2),
    ("world", USAGE, 2),
    ("world 10", USAGE, 2),
    ("bench", VECTORS, 0),
    ("bench 1", USAGE, 2),
    ("drive 1", "fault stdin\n", 1),
    ("drive 00010", "fault stdin\n", 1),
    ("drive 65535", "fault stdin\n", 1),
];

/// Gives its bytes, and then fails.
#[derive(Drop)]
struct FailingReader {
    bytes: &'static [u8],
}

impl Read for FailingReader {
    fn read(&mut self, buf: &mut [u8]) -> io::Result<usize> {
        if self.bytes.is_empty() {
            return Err(io::Error::from(ErrorKind::Other));
        }
        self.bytes.read(buf)
    }
}

/// Takes so many bytes, and then fails.
#[derive(Drop)]
struct FailingWriter {
    room: usize,
}

impl Write for FailingWriter {
    fn write(&mut self, buf: &[u8]) -> io::Result<usize> {
        if self.room < buf.len() {
            return Err(io::Error::from(ErrorKind::Other));
        }
        self.room -= buf.len();
        Ok(buf.len())
    }

    fn flush(&mut self) -> io::Result<()> {
        Ok(())
    }
}

fn owned(alloc: Global, words: &str) -> Result<Vec<String>, AllocError> {
    words
        .split(' ')
        .map(|word| String::from_str(alloc, word))
        .try_collect(alloc)
}

/// What the program prints, and its status.
fn printed<R: Read>(alloc: Global, words: &str, input: &mut R) -> Result<(String, u8), Fail> {
    let words = owned(alloc, words)?;
    let mut output = Vec::new(alloc);
    let status = run(alloc, words.as_slice(), input, &mut output);
    match String::from_utf8(output) {
        Ok(text) => Ok((text, status)),
        Err(_) => Err(Fail::from("not UTF-8")),
    }
}

#[test]
fn scripts(rt: HostRuntime) -> Result<(), Fail> {
    for (script, lines, want) in SCRIPTS {
        let mut input = script.as_bytes();
        let (text, status) = printed(rt.alloc(), "drive 10", &mut input)?;
        assert_eq!(rt; text.as_str(), *lines, "of {script:?}");
        assert_eq!(rt; status, *want, "of {script:?}");
    }
    Ok(())
}

#[test]
fn scripts_of_few_ids(rt: HostRuntime) -> Result<(), Fail> {
    for (words, script, lines, want) in SCRIPTS_OF_FEW {
        let mut input = script.as_bytes();
        let (text, status) = printed(rt.alloc(), words, &mut input)?;
        assert_eq!(rt; text.as_str(), *lines, "of {script:?}");
        assert_eq!(rt; status, *want, "of {script:?}");
    }
    Ok(())
}

#[test]
fn bad_lines(rt: HostRuntime) -> Result<(), Fail> {
    for line in BAD_LINES {
        let mut input = line.as_bytes();
        let (text, status) = printed(rt.alloc(), "drive 10", &mut input)?;
        assert_eq!(rt; text.as_str(), "line 1: bad\n", "of {line:?}");
        assert_eq!(rt; status, 2, "of {line:?}");
    }
    Ok(())
}

#[test]
fn longest_scripts(rt: HostRuntime) -> Result<(), Fail> {
    for (byte, len, lines, want) in [
        (b'\n', 1_000_000, "out -\ninflight 0\n", 0),
        (b'\n', 1_000_001, "line 0: bad\n", 2),
        (0xFF, 1, "line 0: bad\n", 2),
    ] {
        let script = vec![in rt.alloc(); byte; len]?;
        let mut input = script.as_slice();
        let (text, status) = printed(rt.alloc(), "drive 10", &mut input)?;
        assert_eq!(rt; text.as_str(), lines, "of {len} bytes");
        assert_eq!(rt; status, want, "of {len} bytes");
    }
    Ok(())
}

#[test]
fn words(rt: HostRuntime) -> Result<(), Fail> {
    for (words, lines, want) in WORDS {
        let mut input = FailingReader { bytes: b"in 1 -\n" };
        let (text, status) = printed(rt.alloc(), words, &mut input)?;
        assert_eq!(rt; text.as_str(), *lines, "of {words:?}");
        assert_eq!(rt; status, *want, "of {words:?}");
    }
    Ok(())
}

#[test]
fn failing_writes(rt: HostRuntime) -> Result<(), Fail> {
    let acked = "pub 0 1 612f62 6869\nin 1 40020001\n";
    for (words, lines, done) in [("drive 10", ACKED, 0), ("fly", USAGE, 2)] {
        let words = owned(rt.alloc(), words)?;
        for room in 0..=lines.len() {
            let mut input = acked.as_bytes();
            let mut output = FailingWriter { room };
            let status = run(rt.alloc(), words.as_slice(), &mut input, &mut output);
            let want = if room < lines.len() { 1 } else { done };
            assert_eq!(rt; status, want, "with room for {room} bytes");
        }
    }
    Ok(())
}

/// A vector's place, counted from 0, its frame with one byte bent, and the line that is printed then.
const BENT: [(usize, &[u8], &[u8]); 8] = [
    (
        0,
        &[
            0x10, 0x0E, 0x00, 0x04, 0x4D, 0x51, 0x54, 0x54, 0x05, 0x02, 0x00, 0x3C, 0x00, 0x00,
            0x01, 0x64,
        ],
        b"V1 bad",
    ),
    (4, &[0x40, 0x02, 0x00, 0x02], b"V5 bad"),
    (13, &[0xC0, 0x01, 0x00], b"V14 bad"),
    (23, &[0xE0, 0x01, 0x00], b"V24 bad"),
    (
        32,
        &[
            0x30, 0x09, 0x00, 0x01, 0x61, 0x05, 0x02, 0x00, 0x00, 0x00, 0x01,
        ],
        b"V33 bad",
    ),
    (33, &[0x30, 0x04, 0x00, 0x01, 0xFE, 0x00], b"V34 bad"),
    (
        34,
        &[0x30, 0x08, 0x00, 0x01, 0x61, 0x04, 0x01, 0x01, 0x01, 0x00],
        b"V35 bad",
    ),
    (35, &[0x30, 0x05, 0x00, 0x01, 0x62, 0x80, 0x00], b"V36 bad"),
];

/// What is printed of the vectors with this frame in the place of another.
fn with_frame(
    alloc: Global,
    place: usize,
    frame: &'static [u8],
) -> Result<(String, Option<bool>), Fail> {
    let mut frames = FRAMES;
    if let Some(old) = frames.get_mut(place) {
        *old = frame;
    }
    let mut output = Vec::new(alloc);
    let all = try_vectors(alloc, &frames, &mut output).map_err(|_| "not written")?;
    match String::from_utf8(output) {
        Ok(text) => Ok((text, all)),
        Err(_) => Err(Fail::from("not UTF-8")),
    }
}

#[test]
fn bent_vectors(rt: HostRuntime) -> Result<(), Fail> {
    for (place, frame, line) in BENT {
        let (text, all) = with_frame(rt.alloc(), place, frame)?;
        assert!(rt; all == Some(false), "at {place}");
        assert_eq!(rt;
            text.lines().filter(|l| l.ends_with(" bad")).count(),
            1,
            "at {place}"
        );
        assert!(rt; text.lines().any(|l| l.as_bytes() == line), "at {place}");
    }
    Ok(())
}
