//! Parts of a row: numbers, bytes, and steps.
use crate::answering::NoAnswer;
use std::alloc::Global;

/// Bytes in hex.
pub fn bytes(alloc: Global, word: &str) -> Result<Vec<u8>, NoAnswer> {
    Ok(hex::decode(alloc, word)?)
}

/// The numbers of a part, which stand between blanks.
pub fn numbers(alloc: Global, part: &str) -> Result<Vec<u64>, NoAnswer> {
    let mut numbers = Vec::new(alloc);
    for word in part.split_whitespace() {
        numbers.push(word.parse::<u64>()?)?;
    }
    Ok(numbers)
}

/// One of the steps that a row tells one after another: a verb, and up to four numbers behind it.
#[derive(Clone, Copy)]
pub struct Step<'a> {
    pub verb: &'a str,
    pub numbers: [u64; 4],
}

fn step_of(text: &str) -> Result<Step<'_>, NoAnswer> {
    let mut words = text.split_whitespace();
    let verb = words.next().unwrap_or("");
    let mut numbers = [0; 4];
    for place in 0..4usize {
        if let Some(word) = words.next() {
            numbers[place] = word.parse::<u64>()?;
        }
    }
    Ok(Step { verb, numbers })
}

/// The steps of a part, which stand between commas.
pub fn steps(alloc: Global, part: &str) -> Result<Vec<Step<'_>>, NoAnswer> {
    let mut steps = Vec::new(alloc);
    for text in part.split(',') {
        steps.push(step_of(text)?)?;
    }
    Ok(steps)
}
