//! Marks of topic filters and of topics.

ghost use Rattle.std.specs.Prelude.{◌≡◌, ◌==◌, if◌then◌else◌};
ghost use Rattle.mqtt5_topic_index.specs.Marks.{mixed, is_wild, reach, mark_of};

/// How many bytes of a filter and of a topic count: neither a long one nor one of many levels takes much time.
#[tactic(auto, unfolding(crate::specs::Marks::reach))]
pub(super) fn reach() -> usize
    ensures { result ≡ reach }
{
    128
}

/// The mark of a text with one byte more.
#[inline]
pub(super) fn mixed(mark: u64, byte: u8) -> u64
    ensures { result ≡ mixed mark byte }
{
    mark.wrapping_mul(1_099_511_628_211)
        .wrapping_add(byte as u64 + 1)
}

/// Whether a byte makes its level a wildcard.
fn is_wild(byte: u8) -> bool
    ensures { result ≡ is_wild byte }
{
    byte == b'+' || byte == b'#'
}

/// The mark at the start of the level, once a byte is read, behind which the text has a mark.
fn start_behind(start: u64, mark: u64, byte: u8) -> u64
    ensures { result ≡ (if byte == 47 then mark else start) }
{
    if byte == b'/' { mark } else { start }
}

/// The mark of a topic filter: of its levels before the first wildcard, among its first 128 bytes (MQTT 5.0 section 4.7.1). Of a
/// shared subscription the filter is what stands behind the share name (4.8.2). Takes no memory.
pub fn mark_of(topic_filter: &[u8]) -> u64
    ensures { result ≡ mark_of topic_filter.now }
{
    let mut start = 0;
    let mut mark = 0;
    for i in 0..reach() {
        if i >= topic_filter.len() {
            return mixed(mark, b'/');
        }
        let byte = topic_filter[i];
        if is_wild(byte) {
            return start;
        }
        mark = mixed(mark, byte);
        start = start_behind(start, mark, byte);
    }
    start
}
