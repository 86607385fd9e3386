//! A row of a connection to a switch that serves, which is cut at each place in turn. Each cut has a desk of its own.
//!
//! A row has what the desks open with, the client's bytes in hex, the way of the cuts, how many there are, and the steps of a desk, with
//! tabs between them. Its steps name the client's bytes `CLIENT` and the cut `CUT`, which is the way and a number from 0. The answers at a
//! desk are told, the same ones in a row once, behind how often they came.
use crate::opening;
use crate::turns::Turns;
use row_lines::NoAnswer;
use std::alloc::Global;
use std::sync::Wait;

// A step in which the client's bytes and the cut stand in the place of their names.
fn step_of(
    alloc: Global,
    step: &str,
    client: &str,
    way: &str,
    number: u32,
) -> Result<String, NoAnswer> {
    let mut text = String::new(alloc);
    for word in step.split_whitespace() {
        match word {
            "CLIENT" => text.push_str(client)?,
            "CUT" => write!(text, "{way} {number}")?,
            word => text.push_str(word)?,
        }
        text.push(' ')?;
    }
    Ok(text)
}

// The steps of a cut.
fn steps_of(
    alloc: Global,
    steps: &[&str],
    client: &str,
    way: &str,
    number: u32,
) -> Result<Vec<String>, NoAnswer> {
    let mut texts = Vec::new(alloc);
    for step in steps {
        texts.push(step_of(alloc, step, client, way, number)?)?;
    }
    Ok(texts)
}

// What a desk answers that opens with these words to these steps.
fn answer_steps<T: Wait>(
    rt: &T,
    alloc: Global,
    words: &str,
    steps: &[String],
) -> Result<String, NoAnswer> {
    let mut asked = Vec::new(alloc);
    asked.push(words)?;
    for step in steps {
        asked.push(step.as_str())?;
    }
    let mut told = String::new(alloc);
    opening::answer(rt, alloc, &asked, &mut told)?;
    Ok(told)
}

/// Answers a row.
pub fn answer<T: Wait>(
    rt: &T,
    alloc: Global,
    asked: &[&str],
    told: &mut String,
) -> Result<(), NoAnswer> {
    let [words, client, way, cuts, steps @ ..] = asked else {
        return Err(NoAnswer);
    };
    let mut turns = Turns::new(alloc);
    for number in 0..cuts.parse::<u32>()? {
        let steps = steps_of(alloc, steps, client, way, number)?;
        let answer = answer_steps(rt, alloc, words, &steps)?;
        turns.take(answer, told)?;
    }
    turns.end(told)
}
