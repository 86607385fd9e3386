//! Reading questions, and writing what is answered to them.
use hex::FromHexError;
use list_types::NoMemory;
use std::alloc::{AllocError, AllocFailed, Global};
use std::io::{self, BufRead, BufReader};
use std::num::ParseIntError;

/// A line is no row, or there was no memory for its answer.
#[derive(Clone, Copy, Debug)]
pub struct NoAnswer;

impl From<NoMemory> for NoAnswer {
    fn from(_: NoMemory) -> NoAnswer {
        NoAnswer
    }
}

impl From<AllocError> for NoAnswer {
    fn from(_: AllocError) -> NoAnswer {
        NoAnswer
    }
}

impl<T: Drop> From<AllocFailed<T>> for NoAnswer {
    fn from(failed: AllocFailed<T>) -> NoAnswer {
        drop(failed);
        NoAnswer
    }
}

impl From<FromHexError> for NoAnswer {
    fn from(_: FromHexError) -> NoAnswer {
        NoAnswer
    }
}

impl From<ParseIntError> for NoAnswer {
    fn from(_: ParseIntError) -> NoAnswer {
        NoAnswer
    }
}

// What is written for one line: the kind of row, its name, and what is answered to its other parts.
fn told<F: Fn(Global, &str, &[&str], &mut String) -> Result<(), NoAnswer>>(
    alloc: Global,
    line: &str,
    answer: &F,
) -> Result<String, NoAnswer>
    requires { F.IsAlwaysCallable answer.now }
{
    let mut parts = Vec::new(alloc);
    for part in line.split('\t') {
        parts.push(part)?;
    }
    let [kind, name, asked @ ..] = parts.as_slice() else {
        return Err(NoAnswer);
    };
    let mut told = String::new(alloc);
    answer(alloc, kind, asked, &mut told)?;
    Ok(format!(in alloc; "{kind}\t{name}\t{told}")?)
}

/// Answers each line of the standard input, which has a kind of row, the row's name, and what is asked, with tabs
/// between them. Lines that begin with `#`, and empty ones, are passed over.
pub fn answer_lines<
    R: AllocGlobal + Input + Print,
    F: Fn(Global, &str, &[&str], &mut String) -> Result<(), NoAnswer>,
>(rt: &R, answer: F) -> io::Result<()>
    requires { F.IsAlwaysCallable answer }
{
    let reader = BufReader::new(rt.alloc(), rt.reader())?;
    for line in reader.lines(rt.alloc()) {
        let line = line?;
        if line.is_empty() || line.starts_with('#') {
            continue;
        }
        match told(rt.alloc(), line.as_str(), &answer) {
            Ok(told) => println!(rt; "{told}")?,
            Err(NoAnswer) => println!(rt; "no answer: {line}")?,
        }
    }
    Ok(())
}
