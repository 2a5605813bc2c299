// The words of a line, read one behind the other.
ghost use Rattle.std.specs.Prelude.{◌≡◌, ◌≤◌, ◌<◌, ◌^◌, ◌↔◌, SomeIff, IsNone, IsTrue, Some, position, option_copied};
ghost use Rattle.text.specs.Words.{is_space, next_word, left_behind, Reads};
ghost use Rattle.text.specs.Numbers.{IsDigit, with_digit, IsNumber, IsReadable, number, ReadsNumber};
ghost use Rattle.text.specs.Hex.{IsHex, bytes_of};

use crate::{ROOM, hex};
use std::marker::Model;

// What is left of a line: nothing behind its last word.
#[derive(Drop)]
pub struct Words<'a> {
    rest: Option<&'a [u8]>,
}

impl<'a> Model for Words<'a> {
    ghost use Rattle.std.specs.Prelude.{ℕ, List, Option, option_copied};

    ghost Value = { Option (List ℕ) };

    ghost view = { λ w. option_copied w.rest };
}

// The place of a text's first space.
fn space(text: &[u8]) -> Option<usize>
    ensures { result ≡ position is_space text.now }
{
    text.iter().position(|c| *c == b' ')
}

// A number with one decimal digit more.
fn with_digit(n: u64, c: u8) -> Option<u64>
    ensures { SomeIff result (IsDigit c × (with_digit n c < 2 ^ 64)) (with_digit n c) }
{
    if c.is_ascii_digit() {
        n.checked_mul(10)?.checked_add(u64::from(c - b'0'))
    } else {
        None
    }
}

// The number that a text of decimal digits writes.
#[tactic(auto, using(crate::proofs::Numbers::of_digits))]
pub fn decimal(text: &[u8]) -> Option<u64>
    ensures { SomeIff result (IsReadable text.now) (number text.now) }
{
    if text.is_empty() {
        return None;
    }
    let mut n = 0;
    for c in text {
        n = with_digit(n, *c)?;
    }
    Some(n)
}

impl<'a> Words<'a> {
    pub fn of(line: &'a [u8]) -> Words<'a>
        ensures { result ≡ Some line.now }
    {
        Words { rest: Some(line) }
    }

    // The next word.
    pub fn word(&mut self) -> Option<&'a [u8]>
        ensures word { option_copied result ≡ next_word self.old }
        ensures left { self.new ≡ left_behind self.old }
    {
        let text = self.rest?;
        match space(text) {
            Some(end) => {
                self.rest = Some(&text[end + 1..]);
                Some(&text[..end])
            }
            None => {
                self.rest = None;
                Some(text)
            }
        }
    }

    // The next word as a number that its type holds.
    pub fn number<T: TryFrom<u64>>(&mut self) -> Option<T>
    where
        T::Error: Drop,
        ensures number { ReadsNumber T.try_from_gives (next_word self.old) result }
        ensures left { self.new ≡ left_behind self.old }
    {
        let n = decimal(self.word()?)?;
        T::try_from(n).ok()
    }

    // The next word as a number of bytes, of which a lent buffer has so many. A type that kept this promise would go through every call up to where
    // a buffer is cut, to spare the `min` there: no plainer.
    pub fn room(&mut self) -> Option<usize>
        ensures number { Reads (λ word. IsNumber word × (number word ≤ ROOM)) number (next_word self.old) result }
        ensures left { self.new ≡ left_behind self.old }
    {
        let n = self.number()?;
        (n <= ROOM).then_some(n)
    }

    // The next word as hexadecimal bytes, which are put at the start of `out`.
    pub fn bytes<'b>(&mut self, out: &'b mut [u8; ROOM]) -> Option<&'b [u8]>
        ensures bytes { Reads IsHex bytes_of (next_word self.old) (option_copied result) }
        ensures left { self.new ≡ left_behind self.old }
    {
        hex::read(self.word()?, out)
    }

    // Whether no word is left.
    pub fn is_empty(&self) -> bool
        ensures { IsTrue result ↔ IsNone self.now }
    {
        self.rest.is_none()
    }
}
