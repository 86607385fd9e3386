//! Texts that stand one behind another.
ghost use Rattle.std.specs.Prelude.{◌≡◌, [], ◌∷◌, ◌++◌, length, OnOk, OnErr};

use crate::left::TextsLeft;
use list_types::NoMemory;
use std::alloc::Global;
use std::marker::Model;

/// A growing list of texts in UTF-8, which a contract sees as the list of their bytes. Beside its bytes a text takes
/// those of its length, 8, so there may be a great many short ones.
#[derive(Drop)]
pub struct TextList {
    lengths: Vec<usize>,
    bytes: Vec<u8>,
}

impl Model for TextList {
    ghost use Rattle.std.specs.Prelude.{List, ℕ};
    ghost use Rattle.text_lists.specs.Texts.{texts_in, AreTexts};

    ghost Value = { List (List ℕ) };

    ghost view = { λ list. texts_in list.lengths.items list.bytes.items };

    ghost invariant = { λ list. AreTexts list.lengths.items list.bytes.items };
}

impl TextList {
    /// The empty list, which takes no memory.
    pub fn new(alloc: Global) -> TextList
        ensures { result ≡ [] }
    {
        TextList {
            lengths: Vec::new(alloc),
            bytes: Vec::new(alloc),
        }
    }

    /// Adds a text at the end.
    #[tactic(auto, using(crate::proofs::Pushed::texts_more, crate::proofs::Pushed::are_more))]
    pub fn push(&mut self, text: &str) -> Result<(), NoMemory>
        ensures ok { OnOk result (self.new ≡ self.old ++ text.now ∷ []) }
        ensures err { OnErr result (self.new ≡ self.old) }
    {
        self.lengths.reserve(1)?;
        self.bytes.extend_from_slice(text.as_bytes())?;
        self.lengths.push(text.len())?;
        Ok(())
    }

    /// How many texts there are.
    #[tactic(auto, using(crate::proofs::Pushed::count))]
    pub fn len(&self) -> usize
        ensures { result ≡ length self.now }
    {
        self.lengths.len()
    }

    /// The texts one after another, from the first.
    pub fn iter(&self) -> TextsLeft<'_>
        ensures { result ≡ self.now }
    {
        TextsLeft::new(self.lengths.as_slice(), self.bytes.as_slice())
    }
}
