//! The words after the program's name.

/// What the words ask for.
#[derive(Clone, Copy, Debug, PartialEq, Eq)]
pub struct Asked {
    /// Whether the input is hexadecimal digits.
    pub hex: bool,
    /// Whether a line is JSON.
    pub json: bool,
    /// The greatest remaining length that is taken. None is no limit.
    pub limit: Option<u32>,
}

/// `show`, and behind it `--hex`, `--json` and `--limit N`, each at most once. None of other words.
pub fn parse_words(words: &[String]) -> Option<Asked> {
    let (first, options) = words.split_first()?;
    if first.as_str() != "show" {
        return None;
    }
    parse_options(options)
}

fn parse_options(options: &[String]) -> Option<Asked> {
    let mut asked = Asked {
        hex: false,
        json: false,
        limit: None,
    };
    let mut left = options;
    for _ in 0..options.len() {
        let Some((word, others)) = left.split_first() else {
            break;
        };
        left = parse_option(&mut asked, word, others)?;
    }
    Some(asked)
}

/// Takes an option, with its value of the words behind it, and answers the words behind that.
fn parse_option<'a>(
    asked: &mut Asked,
    word: &String,
    others: &'a [String],
) -> Option<&'a [String]> {
    match word.as_str() {
        "--hex" if !asked.hex => asked.hex = true,
        "--json" if !asked.json => asked.json = true,
        "--limit" if asked.limit.is_none() => {
            let (number, behind) = others.split_first()?;
            asked.limit = Some(parse_number(number)?);
            return Some(behind);
        }
        _other => return None,
    }
    Some(others)
}

/// A number of decimal digits alone, which fits a `u32`.
fn parse_number(number: &String) -> Option<u32> {
    if !number.as_str().bytes().all(|byte| byte.is_ascii_digit()) {
        return None;
    }
    number.as_str().parse::<u32>().ok()
}
