//! Texts, one after another.
ghost use Rattle.std.specs.Prelude.{◌≡◌, [], ◌∷◌, IfSome, IfNone};
ghost use Rattle.std.specs.Str.{IsUtf8};
ghost use Rattle.text_lists.specs.Texts.{texts_in, AreTexts};

use std::marker::Model;

/// The texts that are left of a list. A contract sees the list of their bytes.
#[derive(Drop)]
pub struct TextsLeft<'a> {
    lengths: &'a [usize],
    bytes: &'a [u8],
}

impl<'a> Model for TextsLeft<'a> {
    ghost use Rattle.std.specs.Prelude.{List, ℕ};
    ghost use Rattle.text_lists.specs.Texts.{texts_in, AreTexts};

    ghost Value = { List (List ℕ) };

    ghost view = { λ left. texts_in left.lengths.now left.bytes.now };

    ghost invariant = { λ left. AreTexts left.lengths.now left.bytes.now };
}

impl<'a> TextsLeft<'a> {
    pub(crate) fn new(lengths: &'a [usize], bytes: &'a [u8]) -> TextsLeft<'a>
        requires { AreTexts lengths.now bytes.now }
        ensures { result ≡ texts_in lengths.now bytes.now }
    {
        TextsLeft { lengths, bytes }
    }

    /// The bytes of the next text, or `None` at the end.
    pub fn next(&mut self) -> Option<&'a [u8]>
        ensures text { IfSome result (λ text. self.old ≡ text.now ∷ self.new) }
        ensures utf8 { IfSome result (λ text. IsUtf8 text.now) }
        ensures end { IfNone result (self.old ≡ []) }
    {
        let (length, others) = self.lengths.split_first()?;
        let (text, rest) = self.bytes.split_at(*length);
        self.lengths = others;
        self.bytes = rest;
        Some(text)
    }
}
