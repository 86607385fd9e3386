//! Answers one after another, of which the same ones in a row are told once.
use row_lines::NoAnswer;
use std::alloc::Global;

/// The last answer, and how often it has come.
#[derive(Drop)]
pub struct Turns {
    last: String,
    times: u32,
}

impl Turns {
    /// No answer yet.
    pub fn new(alloc: Global) -> Turns {
        Turns {
            last: String::new(alloc),
            times: 0,
        }
    }

    /// Takes the next answer, and tells those before it where it is another.
    pub fn take(&mut self, answer: String, told: &mut String) -> Result<(), NoAnswer> {
        if self.last != answer {
            self.end(told)?;
            self.last = answer;
            self.times = 0;
        }
        self.times = self.times.saturating_add(1);
        Ok(())
    }

    /// Tells the last answer behind how often it came, on a line of its own.
    pub fn end(&self, told: &mut String) -> Result<(), NoAnswer> {
        if self.times > 0 {
            write!(told, "\n{} times {}", self.times, self.last)?;
        }
        Ok(())
    }
}
