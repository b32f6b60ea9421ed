// The words of a text, one after another, each with the place where it begins.
ghost use Rattle.std.specs.Prelude.{◌≡◌, ◌≤◌, not, length};
ghost use Rattle.std.specs.List.{position, prefix_len};
ghost use Rattle.std.specs.Iterator.{YieldsFirst, item_count};
ghost use Rattle.spelling.specs.Notation.{is_blank, words};
ghost use Rattle.spelling.specs.Passes.{left_from};

use crate::word;
use crate::word::{Heading, Word};

#[derive(Clone, Copy)]
pub struct Placed {
    pub place: usize,
    // None, where the word is bad.
    pub word: Option<Word>,
}

// The words that begin at a byte or behind it, and the heading that stands before them.
#[derive(Clone, Copy)]
pub struct Words<'a> {
    text: &'a [u8],
    heading: Heading,
    at: usize,
    ghost within: { at ≤ length text.now },
}

impl<'a> Words<'a> {
    pub fn of(text: &'a [u8]) -> Words<'a>
        ensures { left_from result.text.now result.heading result.at ≡ words text.now }
    {
        Words {
            text,
            heading: Heading::Before,
            at: 0,
        }
    }
}

impl<'a> Iterator for Words<'a> {
    type Item = Placed;

    ghost next_gives = { YieldsFirst (λ s. left_from s.text.now s.heading s.at) };

    ghost remaining = { item_count (λ s. left_from s.text.now s.heading s.at) };

    fn next(&mut self) -> Option<Placed> {
        let place = self.at + first_in(&self.text[self.at..])?;
        let end = place + length_of(&self.text[place..]);
        let word = word::word_under(self.heading, &self.text[place..end]);
        self.heading = self.heading.after(word);
        self.at = end;
        Some(Placed { place, word })
    }
}

// How many blanks stand before the first word.
fn first_in(text: &[u8]) -> Option<usize>
    ensures { result ≡ position (λ b. not (is_blank b)) text.now }
{
    text.iter().position(|b| !is_blank(*b))
}

// How long the word is that a text begins with.
fn length_of(text: &[u8]) -> usize
    ensures bytes { result ≡ prefix_len (λ b. not (is_blank b)) text.now }
    ensures within { result ≤ length text.now }
{
    text.iter().take_while(|b| !is_blank(**b)).count()
}

// Blanks are between the words of a text.
fn is_blank(b: u8) -> bool
    ensures { result ≡ is_blank b }
{
    matches!(b, b' ' | b'\t' | b'\n' | b'\r' | b',')
}
