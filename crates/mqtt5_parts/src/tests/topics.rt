//! Topics and topic filters.

use super::{cut, text_of};
use mqtt5_base::{Error, has_wildcards, matches, matching_laws, valid_filter, valid_topic};
use std::test::Fail;

/// Texts, and whether each is a filter.
const FILTERS: &str = "sport/tennis# false
sport/++ false
sport+ false
sport/tennis#/player false
sport/tennis/#/ranking false
- false
# true
+/+ true
/ true
a/# true
abcdefghijklmno/# true
abcdefghijklmno+ false
abcdefghijklmnop+ false
abcdefghijklmnop/+ true
abcdefghijklmnop/#/a false
+bcdefghijklmnopqrst false
abcdefghijklmn#/ false
a/+/c/+/e/+/g/+/i/#/k false
a/+/c/+/e/+/g/+/i/# true
abcdefghijklmnopqrstuvwxyzabcde+ false
abcdefghijklmnopqrstuvwxyzabcde/# true
abcdefghijklmnopqrstuvwxyzabcdef#/a false
abcdefghijklmnopqrstuvwxyzabcdef/+/a true
abcdefghijklmnop true
abcdefghijklmnopqrstuvwxyzabcdef true
éééééééé/# true
éééééééé+ false
";

/// Texts, whether each has wildcards, and whether it is a topic.
const TOPICS: &str = "a/b false true
a/+ true false
# true false
- false true
";

/// Topics, filters, and whether the one matches the other.
const MATCHES: &str = "- - true
- # true
- + true
a a/# true
a a/+ false
a/b a false
$ # false
a/b/c a/b/c/# true
a/b/c a/b/c/d false
a/# a/+ false
é/a +/a true
$SYS/a $SYS/a false
abcdefghijklmnop/x abcdefghijklmnop/+ true
abcdefghijklmnop abcdefghijklmnopq false
abcdefghijklmnopq abcdefghijklmnop false
abcdefghijklmnopqrst/x abcdefghijklmnopqrst/x true
abcdefghijklmnopqrst/x abcdefghijklmnopqrsu/x false
abcdefghijklmnopqrst/x abcdefghijklmnopqrst/y false
abcdefghijklmnopqrst/x abcdefghijklmnopqrstu/x false
abcdefghijklmnopqrst abcdefghijklmnopqrst/# true
xbcdefghijklmnopqrst/x abcdefghijklmnopqrst/x false
abcdefghijklmno abcdefghijklmnop false
abcdefghijklmnop abcdefghijklmno false
home/kitchen/temperature/1 home/kitchen/temperature/1 true
home/kitchen/temperature/1 home/kitchen/temperature/2 false
home/kitchen/temperature/1 home/kitchen/# true
home/kitchen/temperature/1 home/+/temperature/1 true
home/kitchen/temperature/1 home/+/humidity/1 false
home//temperature/1/2 home//temperature/+/2 true
/home/kitchen/temperature +/home/kitchen/temperature true
abcdefghijklmno/x abcdefghijklmno/x true
abcdefghijklmno/x abcdefghijklmno/y false
abcdefghijklmno/xy abcdefghijklmnop/xy false
abcdefghijklmno/x +/x true
abcdefghijklmnopqrstuvwxyzabcde/x abcdefghijklmnopqrstuvwxyzabcde/x true
abcdefghijklmnopqrstuvwxyzabcde/x abcdefghijklmnopqrstuvwxyzabcdf/x false
abcdefghijklmnopqrstuvwxyzabcdef/x abcdefghijklmnopqrstuvwxyzabcdef/x true
abcdefghijklmnopqrstuvwxyzabcdef/x abcdefghijklmnopqrstuvwxyzabcdeg/x false
abcdefghijklmnopqrstuvwxyzabcdefg abcdefghijklmnopqrstuvwxyzabcdefh false
abcdefghijklmnopqrstuvwxyzabcdef/x +/x true
abcdefghijklmnopqrstuvwxyzabcdef/x +/y false
abcdefghijklmnopqrstuvwxyzabcdef +/# true
abcdefghijklmnop abcdefghijklmnop true
abcdefghijklmnop/x +/x true
éééééééé/x éééééééé/x true
éééééééé/x éééééééè/x false
éééééééé/x +/x true
#a/x #a/x true
";

fn write_filter(row: &str, text: &mut String) -> Result<(), Error> {
    let (filter, _answer) = cut(row);
    writeln!(text, "{filter} {}", valid_filter(text_of(filter)))?;
    Ok(())
}

#[test]
fn filters(rt: HostRuntime) -> Result<(), Fail> {
    let mut text = String::new(rt.alloc());
    for row in FILTERS.lines() {
        write_filter(row, &mut text)?;
    }
    assert!(rt; text.as_str() == FILTERS, "{text}");
    Ok(())
}

fn write_topic(row: &str, text: &mut String) -> Result<(), Error> {
    let (topic, _answers) = cut(row);
    let (wild, valid) = (has_wildcards(text_of(topic)), valid_topic(text_of(topic)));
    writeln!(text, "{topic} {wild} {valid}")?;
    Ok(())
}

#[test]
fn topics(rt: HostRuntime) -> Result<(), Fail> {
    let mut text = String::new(rt.alloc());
    for row in TOPICS.lines() {
        write_topic(row, &mut text)?;
    }
    assert!(rt; text.as_str() == TOPICS, "{text}");
    Ok(())
}

fn write_match(row: &str, text: &mut String) -> Result<(), Error> {
    let (topic, rest) = cut(row);
    let (filter, _answer) = cut(rest);
    let matches = matches(text_of(topic), text_of(filter));
    writeln!(text, "{topic} {filter} {matches}")?;
    Ok(())
}

#[test]
fn matches_of_filters(rt: HostRuntime) -> Result<(), Fail> {
    matching_laws();
    let mut text = String::new(rt.alloc());
    for row in MATCHES.lines() {
        write_match(row, &mut text)?;
    }
    assert!(rt; text.as_str() == MATCHES, "{text}");
    Ok(())
}
