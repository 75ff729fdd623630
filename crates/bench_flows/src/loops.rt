//! What the processors of texts do, as plain loops over the same texts.
use regex::Regex;
use std::alloc::{AllocError, Global};

/// Where the parts of so many lines end, the last of which may have fewer.
pub fn split(alloc: Global, text: &str, lines: u32) -> Result<Vec<usize>, AllocError> {
    let mut ends = Vec::new(alloc);
    let mut seen = 0u32;
    let bytes = text.as_bytes();
    for place in 0..bytes.len() {
        if bytes[place] == b'\n' {
            seen = seen.saturating_add(1);
        }
        if seen == lines {
            ends.push(place)?;
            seen = 0;
        }
    }
    if seen > 0 {
        ends.push(text.len())?;
    }
    Ok(ends)
}

/// The text with a value in the place of each match.
pub fn replace(
    alloc: Global,
    search: &Regex,
    value: &str,
    text: &str,
) -> Result<String, AllocError> {
    let mut matcher = search.matcher(alloc)?;
    let mut replaced = String::new(alloc);
    let mut is_first = true;
    for between in matcher.split(text) {
        if !is_first {
            replaced.push_str(value)?;
        }
        replaced.push_str(between)?;
        is_first = false;
    }
    Ok(replaced)
}

/// Whether there is a match.
pub fn matches(alloc: Global, search: &Regex, text: &str) -> Result<bool, AllocError> {
    let mut matcher = search.matcher(alloc)?;
    Ok(matcher.is_match(text))
}

/// All texts in a row.
pub fn join(alloc: Global, texts: &[String]) -> Result<String, AllocError> {
    let mut joined = String::new(alloc);
    for text in texts {
        joined.push_str(text.as_str())?;
    }
    Ok(joined)
}
