//! Texts of lines, each line of 64 bytes with its line feed.
use std::alloc::{AllocError, Global};

/// How many lines a part has.
pub const LINES: u32 = 10_000;

/// A text of so many lines, and one more, the only one in which a pattern finds something.
pub fn text(alloc: Global, lines: u32) -> Result<String, AllocError> {
    lines_and(alloc, lines, last_line())
}

/// The same text in parts of `LINES` lines, the last of which may have fewer.
pub fn parts(alloc: Global, lines: u32) -> Result<Vec<String>, AllocError> {
    let mut parts = Vec::new(alloc);
    for _ in 0..lines / LINES {
        parts.push(lines_and(alloc, LINES, "")?)?;
    }
    parts.push(lines_and(alloc, lines % LINES, last_line())?)?;
    Ok(parts)
}

// So many lines, and what stands behind them.
fn lines_and(alloc: Global, lines: u32, end: &str) -> Result<String, AllocError> {
    let mut text = String::new(alloc);
    for _ in 0..lines {
        text.push_str(line())?;
    }
    text.push_str(end)?;
    Ok(text)
}

fn line() -> &'static str {
    "2026-11-28 19:00:00 INFO worker-07 took the item 0042 in 17 ms.\n"
}

fn last_line() -> &'static str {
    "2026-11-28 19:00:00 INFO worker-07 gave the item 0042 back now.\n"
}
