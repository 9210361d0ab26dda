//! Texts that are taken apart from the left.

ghost use Rattle.std.specs.Prelude.{◌≡◌, ◌≢◌, ◌<◌, ◌∷◌, [], length, IfSome, IfNone, IsTrue, ◌↔◌};
ghost use Rattle.mq_schedule.specs.Prelude.{last_word, parts, parts_left};

use std::marker::Model;

/// The part of a text before the first character of a kind, and the text after that, which a last
/// part has not.
pub fn first_part(text: &str, by: char) -> (&str, Option<&str>)
    requires { by < 128 }
    ensures { parts by text.now ≡ result.0.now ∷ parts_left by result.1 }
{
    match text.split_once(by) {
        Some((part, after)) => (part, Some(after)),
        None => (text, None),
    }
}

/// The words of a line that remain, parted by one space each. Contracts see the list of them.
#[derive(Drop)]
pub struct Words<'a> {
    left: Option<&'a str>,
}

impl<'a> Model for Words<'a> {
    ghost use Rattle.std.specs.Prelude.{ℕ, List};

    ghost Value = { List (List ℕ) };

    ghost use Rattle.mq_schedule.specs.Parts.{parts_left};

    ghost view = { λ w. parts_left 32 w.left };
}

/// The first word of a line, and the words after it.
pub fn first_word(line: &str) -> (&str, Words<'_>)
    ensures { parts 32 line.now ≡ result.0.now ∷ result.1 }
{
    let (word, left) = first_part(line, ' ');
    (word, Words { left })
}

impl<'a> Words<'a> {
    /// Whether none is left.
    pub fn is_empty(&self) -> bool
        ensures { IsTrue result ↔ (self.now ≡ []) }
    {
        self.left.is_none()
    }

    /// Takes the next word.
    pub fn next(&mut self) -> Option<&'a str>
        ensures some { IfSome result (λ word. self.old ≡ word.now ∷ self.new) }
        ensures none { IfNone result (self.old ≡ []) }
    {
        let (word, left) = first_part(self.left?, ' ');
        self.left = left;
        Some(word)
    }

    // The last word, if exactly one is left.
    pub(crate) fn one(mut self) -> Option<&'a str>
        ensures some { IfSome result (λ word. self.entry ≡ word.now ∷ []) }
        ensures none { IfNone result (length self.entry ≢ 1) }
    {
        let word = self.next()?;
        self.is_empty().then_some(word)
    }

    // The last words, if exactly two are left.
    pub(crate) fn two(mut self) -> Option<(&'a str, &'a str)>
        ensures some { IfSome result (λ two. self.entry ≡ two.0.now ∷ two.1.now ∷ []) }
        ensures none { IfNone result (length self.entry ≢ 2) }
    {
        let first = self.next()?;
        Some((first, self.one()?))
    }

    // The last words, if two or three are left.
    pub(crate) fn two_or_three(mut self) -> Option<(&'a str, &'a str, Option<&'a str>)>
        ensures some { IfSome result (λ three. self.entry ≡ three.0.now ∷ three.1.now ∷ last_word three.2) }
        ensures none { IfNone result ((length self.entry ≢ 2) × (length self.entry ≢ 3)) }
    {
        let first = self.next()?;
        let second = self.next()?;
        if self.is_empty() {
            return Some((first, second, None));
        }
        Some((first, second, Some(self.one()?)))
    }

    /// The last words, if exactly four are left.
    pub fn four(mut self) -> Option<(&'a str, &'a str, &'a str, &'a str)>
        ensures some { IfSome result (λ four.
            self.entry ≡ four.0.now ∷ four.1.now ∷ four.2.now ∷ four.3.now ∷ []) }
        ensures none { IfNone result (length self.entry ≢ 4) }
    {
        let first = self.next()?;
        let second = self.next()?;
        let (third, fourth) = self.two()?;
        Some((first, second, third, fourth))
    }
}
