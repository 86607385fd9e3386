//! The words of a part.
use row_lines::NoAnswer;
use std::alloc::Global;

/// The words of a part, which stand between blanks.
pub fn words_of<'a>(alloc: Global, part: &'a str) -> Result<Vec<&'a str>, NoAnswer> {
    let mut words = Vec::new(alloc);
    for word in part.split_whitespace() {
        words.push(word)?;
    }
    Ok(words)
}
