//! Texts and lists.

use super::show;
use mqtt5_base::{Error, Sequence, Tagged, Text, copied, same};
use std::alloc::Global;
use std::test::Fail;

/// How many bytes the texts of a list have.
fn bytes_in(texts: &Sequence<Text>) -> usize {
    let mut sum = 0_usize;
    for text in texts {
        sum = sum.saturating_add(text.as_bytes().len());
    }
    sum
}

fn push_two(alloc: Global, texts: &mut Sequence<Text>) -> Result<(), Error> {
    texts.push(Text::from_str(alloc, "a/b")?)?;
    texts.push(Text::from_str(alloc, "grün")?)?;
    Ok(())
}

/// Whether a list is "a/b" and "grün".
fn are_two(texts: &Sequence<Text>) -> bool {
    texts.len() == 2
        && bytes_in(texts) == 8
        && texts.get(0).is_some_and(|text| text.is("a/b"))
        && texts
            .get(1)
            .is_some_and(|text| text.is("grün") && !text.is("grun"))
        && texts.get(2).is_none()
        && texts.iter().any(|text| text.is("grün"))
}

#[test]
fn lists_of_texts(rt: HostRuntime) -> Result<(), Fail> {
    let mut texts = Sequence::new(rt.alloc());
    assert!(rt; texts.is_empty() && texts.len() == 0);
    push_two(rt.alloc(), &mut texts)?;
    assert!(rt; are_two(&texts));
    Ok(())
}

/// A list of one pair.
fn pairs(key: Text, value: Text, alloc: Global) -> Result<Sequence<(Text, Text)>, Error> {
    let mut pairs = Sequence::new(alloc);
    pairs.push((key, value))?;
    Ok(pairs)
}

/// The pair of "a/b" and its copy.
fn copied_pair(alloc: Global) -> Result<Sequence<(Text, Text)>, Error> {
    let text = Text::from(String::from_str(alloc, "a/b")?);
    let copy = copied(&text)?;
    pairs(text, copy, alloc)
}

/// Whether a list is one pair of "a/b" and the same.
fn is_pair_of_same(pairs: &Sequence<(Text, Text)>) -> bool {
    match pairs.as_slice() {
        [(key, value)] => {
            key.as_bytes() == b"a/b".as_slice()
                && same(key, value)
                && pairs.values_fit()
                && pairs.values_len(38) == 11
        }
        _ => false,
    }
}

/// Writes the pairs of a list.
fn write_pairs(pairs: Sequence<(Text, Text)>, text: &mut String) -> Result<(), Error> {
    for (key, value) in pairs.into_vec() {
        show(text, (key.into_string(), value.into_string()))?;
    }
    Ok(())
}

#[test]
fn lists_of_pairs(rt: HostRuntime) -> Result<(), Fail> {
    let pairs = copied_pair(rt.alloc())?;
    assert!(rt; is_pair_of_same(&pairs));
    let mut text = String::new(rt.alloc());
    write_pairs(pairs, &mut text)?;
    assert!(rt; text.as_str() == r#" ("a/b", "a/b")"#, "{text}");
    Ok(())
}

/// The value of the first pair of this name.
fn value_of<'a>(pairs: &'a Sequence<(Text, Text)>, name: &str) -> Option<&'a Text> {
    for (key, value) in pairs {
        if key.is(name) {
            return Some(value);
        }
    }
    None
}

#[test]
fn a_value_by_its_name(rt: HostRuntime) -> Result<(), Fail> {
    let (key, value) = (
        Text::from_str(rt.alloc(), "a")?,
        Text::from_str(rt.alloc(), "b")?,
    );
    let pairs = pairs(key, value, rt.alloc())?;
    let found = value_of(&pairs, "a").is_some_and(|value| value.is("b"));
    assert!(rt; found && value_of(&pairs, "b").is_none());
    Ok(())
}
