//! Rules that all packets share: the QoS of a number, topic names and topic filters.

ghost use Rattle.std.specs.Prelude.{true, false, ◌≡◌, ◌≢◌, ◌<◌, ◌≤◌, ◌==◌, nat_lt, [], ◌∷◌, length, IsSome, IfSome, IfOk, MatchResult, ◌↔◌};
ghost use Rattle.std.specs.List.{before_first, position_or_len};
ghost use Rattle.std.specs.Str.{bytes_eq};
ghost use Rattle.mqtt5_base.specs.Grammar.{is_among, is_qos, number};
ghost use Rattle.mqtt5_base.specs.Answers.{Finds};
ghost use Rattle.mqtt5_base.specs.Reading.{judged};
ghost use Rattle.mqtt5_base.specs.Topics.{IsMatching, are_valid, has_wildcards, is_reserved, is_valid_filter, is_valid_topic, levels, match_levels, topic_matches};
ghost use Rattle.mqtt5_base.specs.Views.{qos_number};
ghost use Rattle.mqtt5_base.specs.Walk.{common_len, level_len, match_behind, plain_len, valid_behind};

use crate::error::Error;
use crate::lanes::{LANES, common_end, plain_end, slash_end};
use crate::quality::QoS;

/// The QoS of a number, which is 0, 1 or 2; None of another.
pub fn qos(num: u8) -> Option<QoS>
    ensures known { IsSome result ↔ (num < 3) }
    ensures number { IfSome result (λ q. qos_number q ≡ num) }
{
    match num {
        0 => Some(QoS::AtMostOnce),
        1 => Some(QoS::AtLeastOnce),
        2 => Some(QoS::ExactlyOnce),
        _ => None,
    }
}

/// The QoS of a number that was read; E7 where it isn't 0, 1 or 2. Takes no memory.
pub fn read_qos(num: u8) -> Result<QoS, Error>
    ensures { Finds (λ q. number (qos_number q)) result
        (judged is_qos Error.InvalidQoS (number num)) }
{
    qos(num).ok_or(Error::InvalidQoS(num))
}

/// Whether a topic or a filter has a wildcard: a `+` or a `#` (MQTT 5.0 section 4.7.1). Takes no memory.
pub fn has_wildcards(s: &str) -> bool
    ensures { result ≡ has_wildcards s.now }
{
    has_plus(s) || has_hash(s)
}

fn has_plus(s: &str) -> bool
    ensures { result ≡ is_among s.now 43 }
{
    s.contains('+')
}

fn has_hash(s: &str) -> bool
    ensures { result ≡ is_among s.now 35 }
{
    s.contains('#')
}

/// Whether a text can be the topic of a publish: it has no wildcard. Takes no memory.
pub fn valid_topic(topic: &str) -> bool
    ensures { result ≡ is_valid_topic topic.now }
{
    !has_wildcards(topic)
}

/// How many bytes at the start of a text are neither `/` nor a wildcard, one by one.
fn plain_by_bytes(text: &[u8]) -> usize
    ensures value { result ≡ plain_len text.now }
    ensures within { result ≤ length text.now }
{
    let mut len = 0;
    while len < text.len() && text[len] != b'/' && text[len] != b'+' && text[len] != b'#' {
        len += 1;
    }
    len
}

/// How many bytes at the start of a text are neither `/` nor a wildcard.
fn plain_len(text: &[u8]) -> usize
    ensures value { result ≡ plain_len text.now }
    ensures within { result ≤ length text.now }
{
    let mut len = 0;
    while LANES <= text.len() - len {
        if let Some(end) = plain_end(&text[len..]) {
            return len + end;
        }
        len += LANES;
    }
    len + plain_by_bytes(&text[len..])
}

/// What is left behind the plain bytes of a level, or whether the filter is valid.
fn behind_plain(filter: &[u8]) -> Result<&[u8], bool>
    ensures value { MatchResult result
        (λ left. are_valid (levels left.now) ≡ valid_behind filter.now)
        (λ valid. valid ≡ valid_behind filter.now) }
    ensures shorter { IfOk result (λ left. length left.now < length filter.now) }
{
    match filter {
        [] => Err(true),
        [b'/', levels @ ..] => Ok(levels),
        _ => Err(false),
    }
}

/// What is left behind the first level of a filter, or whether it is valid.
fn next_level(filter: &[u8]) -> Result<&[u8], bool>
    ensures value { MatchResult result
        (λ left. are_valid (levels left.now) ≡ are_valid (levels filter.now))
        (λ valid. valid ≡ are_valid (levels filter.now)) }
    ensures shorter { IfOk result (λ left. length left.now < length filter.now) }
{
    match filter {
        [b'+' | b'#'] => Err(true),
        [b'+', b'/', levels @ ..] => Ok(levels),
        _ => behind_plain(&filter[plain_len(filter)..]),
    }
}

/// Whether a text can be a filter: it isn't empty, each wildcard is all of its level, and a `#` stands
/// in the last level alone (MQTT 5.0 section 4.7.1). Takes no memory.
pub fn valid_filter(filter: &str) -> bool
    ensures { result ≡ is_valid_filter filter.now }
{
    if filter.is_empty() {
        return false;
    }
    let mut left = filter.as_bytes();
    loop {
        match next_level(left) {
            Ok(levels) => left = levels,
            Err(valid) => return valid,
        }
    }
}

/// Whether a topic is one that no filter matches.
fn is_reserved(topic: &str) -> bool
    ensures { result ≡ is_reserved topic.now }
{
    topic.starts_with('$')
}

/// Whether the first level of a text is this one byte, which isn't `/`.
fn begins_with_level(text: &[u8], byte: u8) -> bool
    requires { byte ≢ 47 }
    ensures { result ≡ bytes_eq (before_first (λ b. b == 47) text.now) (byte ∷ []) }
{
    match text {
        [only] => *only == byte,
        [first, b'/', ..] => *first == byte,
        _ => false,
    }
}

/// How many bytes at the start of both texts are equal and in the first level, one by one.
fn common_by_bytes(topic: &[u8], filter: &[u8]) -> usize
    ensures value { result ≡ common_len topic.now filter.now }
    ensures in_topic { result ≤ length topic.now }
    ensures in_filter { result ≤ length filter.now }
{
    let mut len = 0;
    while len < topic.len()
        && len < filter.len()
        && topic[len] == filter[len]
        && topic[len] != b'/'
    {
        len += 1;
    }
    len
}

/// Whether the first byte of both texts is the same and in the first level.
fn have_common(topic: &[u8], filter: &[u8]) -> bool
    ensures { result ≡ nat_lt 0 (common_len topic.now filter.now) }
{
    match (topic, filter) {
        ([b'/', ..], _) => false,
        ([first, ..], [other, ..]) => first == other,
        _ => false,
    }
}

/// How many bytes at the start of both texts are equal and in the first level.
fn common_len(topic: &[u8], filter: &[u8]) -> usize
    ensures value { result ≡ common_len topic.now filter.now }
    ensures in_topic { result ≤ length topic.now }
    ensures in_filter { result ≤ length filter.now }
{
    if !have_common(topic, filter) {
        return 0;
    }
    let mut len = 0;
    while LANES <= topic.len() - len && LANES <= filter.len() - len {
        if let Some(end) = common_end(&topic[len..], &filter[len..]) {
            return len + end;
        }
        len += LANES;
    }
    len + common_by_bytes(&topic[len..], &filter[len..])
}

/// How many bytes the first level of a text has, one by one.
fn level_by_bytes(text: &[u8]) -> usize
    ensures value { result ≡ level_len text.now }
    ensures within { result ≤ length text.now }
{
    let mut len = 0;
    while len < text.len() && text[len] != b'/' {
        len += 1;
    }
    len
}

/// How many bytes the first level of a text has.
fn level_len(text: &[u8]) -> usize
    ensures value { result ≡ level_len text.now }
    ensures within { result ≤ length text.now }
{
    let mut len = 0;
    while LANES <= text.len() - len {
        if let Some(end) = slash_end(&text[len..]) {
            return len + end;
        }
        len += LANES;
    }
    len + level_by_bytes(&text[len..])
}

/// What is left behind a level that covers one, or whether it matches.
#[tactic(auto, using(crate::proofs::Walk::topic_ended))]
fn left_behind<'a>(topic: &'a [u8], filter: &'a [u8]) -> Result<(&'a [u8], &'a [u8]), bool>
    ensures value { MatchResult result
        (λ left. match_levels (levels left.0.now) (levels left.1.now)
        ≡ match_behind topic.now filter.now)
        (λ matches. matches ≡ match_behind topic.now filter.now) }
    ensures shorter { IfOk result (λ left. length left.1.now < length filter.now) }
{
    match (topic, filter) {
        ([], []) => Err(true),
        ([], [b'/', levels @ ..]) => Err(begins_with_level(levels, b'#')),
        ([b'/', levels @ ..], [b'/', covering @ ..]) => Ok((levels, covering)),
        _ => Err(false),
    }
}

/// Whether the first bytes tell that a topic's first level isn't covered: they differ, and the
/// filter's is no wildcard.
fn differ_at_once(topic: &[u8], filter: &[u8]) -> bool
    ensures { result ≡ true → match_levels (levels topic.now) (levels filter.now) ≡ false }
{
    match (topic, filter) {
        ([first, ..], [other, ..]) => first != other && *other != b'+' && *other != b'#',
        _ => false,
    }
}

/// What is left behind the first level of both, or whether they match.
fn next_levels<'a>(topic: &'a [u8], filter: &'a [u8]) -> Result<(&'a [u8], &'a [u8]), bool>
    ensures value { MatchResult result
        (λ left. match_levels (levels left.0.now) (levels left.1.now)
        ≡ match_levels (levels topic.now) (levels filter.now))
        (λ matches. matches ≡ match_levels (levels topic.now) (levels filter.now)) }
    ensures shorter { IfOk result (λ left. length left.1.now < length filter.now) }
{
    if differ_at_once(topic, filter) {
        return Err(false);
    }
    if begins_with_level(filter, b'#') {
        return Err(true);
    }
    if begins_with_level(filter, b'+') && !begins_with_level(topic, b'#') {
        return left_behind(&topic[level_len(topic)..], &filter[1..]);
    }
    let len = common_len(topic, filter);
    left_behind(&topic[len..], &filter[len..])
}

fn levels_match(topic: &str, filter: &str) -> bool
    ensures { result ≡ match_levels (levels topic.now) (levels filter.now) }
{
    let mut topic_left = topic.as_bytes();
    let mut filter_left = filter.as_bytes();
    loop {
        match next_levels(topic_left, filter_left) {
            Ok((levels, covering)) => {
                topic_left = levels;
                filter_left = covering;
            }
            Err(matches) => return matches,
        }
    }
}

/// Whether a topic matches a filter (MQTT 5.0 section 4.7): level by level, where a `+` of the filter
/// covers each level but `#`, and a `#` all that is left, also nothing. A topic that starts with `$`
/// matches no filter. Neither text's validity is tested. Takes no memory.
pub fn matches(topic: &str, filter: &str) -> bool
    ensures { result ≡ topic_matches topic.now filter.now }
{
    !is_reserved(topic) && levels_match(topic, filter)
}

/// Matching is transitive on all texts, and reflexive on those that don't start with `$`.
pub fn matching_laws()
    ensures { IsMatching }
{}
