//! Writing an answer. A text that memory does not suffice for is cut, so that its row is not answered as it must be.
use std::alloc::Global;
use std::fmt::Debug;

/// Adds a word, with a blank before it where one stands already.
pub fn say(told: &mut String, word: &str) {
    if !told.is_empty() {
        let _ = told.push(' ');
    }
    let _ = told.push_str(word);
}

/// Adds a value, with a blank before it where one stands already.
pub fn tell<D: Debug + Drop>(told: &mut String, value: D) {
    say(told, "");
    let _ = write!(told, "{value:?}");
}

/// Adds bytes in hex; a dot for no bytes.
pub fn tell_hex(alloc: Global, told: &mut String, bytes: &[u8]) {
    match hex::encode(alloc, bytes) {
        Ok(text) if text.is_empty() => say(told, "."),
        Ok(text) => say(told, &text),
        Err(_) => say(told, "no memory"),
    }
}
