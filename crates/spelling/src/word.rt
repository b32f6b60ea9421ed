// What a word of the notation means, under the heading that stands before it.
ghost use Rattle.std.specs.Prelude.{◌≡◌};
ghost use Rattle.recording.specs.Tests.{kind_number};
ghost use Rattle.spelling.specs.declared.word.Word.TheVariants.{Event};
ghost use Rattle.spelling.specs.Notation.{number_of, dot_in, access_of, event_of, entry_under, word_under, heading_after, worker_label_in, field_label_in, event_in};

use recording::Entry;
use recording::event::Kind;

// What the words after a heading are.
#[derive(Clone, Copy)]
pub enum Heading {
    // Before the first heading no word has a meaning: a state with a name, and no Option.
    Before,
    Workers,
    Fields,
    Events,
}

#[derive(Clone, Copy)]
pub enum Word {
    Opens(Heading),
    WorkerLabel(u32),
    FieldLabel(u32),
    Event(Entry),
}

impl Heading {
    // The heading that stands after a word.
    pub fn after(self, word: Option<Word>) -> Heading
        ensures { result ≡ heading_after self word }
    {
        match word {
            Some(Word::Opens(next)) => next,
            _ => self,
        }
    }
}

// What a word gives to a row: each asks for its own variant.
impl Word {
    pub fn worker_label(self) -> Option<u32>
        ensures { result ≡ worker_label_in self }
    {
        match self {
            Word::WorkerLabel(n) => Some(n),
            _ => None,
        }
    }

    pub fn field_label(self) -> Option<u32>
        ensures { result ≡ field_label_in self }
    {
        match self {
            Word::FieldLabel(n) => Some(n),
            _ => None,
        }
    }

    pub fn event(self) -> Option<Entry>
        ensures { result ≡ event_in self }
    {
        match self {
            Word::Event(e) => Some(e),
            _ => None,
        }
    }
}

// One to nine digits, so that the number fits.
#[tactic(auto, unfolding(crate::specs::Notation::number_of, crate::specs::Notation::number_after))]
fn number_of(word: &[u8]) -> Option<u32>
    ensures { result ≡ number_of word.now }
{
    if word.is_empty() || 9 < word.len() {
        return None;
    }
    let mut n = 0u32;
    for digit in word {
        if !digit.is_ascii_digit() {
            return None;
        }
        n = 10 * n + u32::from(*digit - b'0');
    }
    Some(n)
}

// An event as a file gives it.
fn event_by(kind: Kind, worker: u32, field: u32) -> Word
    ensures { result ≡ Event (record { kind = kind_number kind; worker = worker; field = field }) }
{
    Word::Event(Entry {
        kind: kind.number(),
        worker,
        field,
    })
}

// How many bytes stand before the first dot.
fn dot_in(word: &[u8]) -> Option<usize>
    ensures { result ≡ dot_in word.now }
{
    word.iter().position(|b| *b == b'.')
}

// What follows the letter of an access: two numbers with a dot between.
#[tactic(auto, unfolding(crate::specs::Notation::access_of))]
fn access_of(kind: Kind, numbers: &[u8]) -> Option<Word>
    ensures { result ≡ access_of (kind_number kind) numbers.now }
{
    let dot = dot_in(numbers)?;
    let worker = number_of(&numbers[..dot])?;
    let field = number_of(&numbers[dot + 1..])?;
    Some(event_by(kind, worker, field))
}

#[tactic(auto, unfolding(crate::specs::Notation::event_of))]
fn event_of(word: &[u8]) -> Option<Word>
    ensures { result ≡ event_of word.now }
{
    let (letter, rest) = word.split_first()?;
    match letter {
        b'R' => access_of(Kind::Read, rest),
        b'W' => access_of(Kind::Write, rest),
        b'B' => number_of(rest).map(|worker| event_by(Kind::Crossing, worker, 0)),
        _ => None,
    }
}

// A word that is no heading.
#[tactic(auto, unfolding(crate::specs::Notation::entry_under))]
fn entry_under(heading: Heading, word: &[u8]) -> Option<Word>
    ensures { result ≡ entry_under heading word.now }
{
    match heading {
        Heading::Before => None,
        Heading::Workers => number_of(word).map(Word::WorkerLabel),
        Heading::Fields => number_of(word).map(Word::FieldLabel),
        Heading::Events => event_of(word),
    }
}

// No word, where it is bad.
#[tactic(auto, unfolding(crate::specs::Notation::word_under))]
pub fn word_under(heading: Heading, word: &[u8]) -> Option<Word>
    ensures { result ≡ word_under heading word.now }
{
    if word == b"workers".as_slice() {
        return Some(Word::Opens(Heading::Workers));
    }
    if word == b"fields".as_slice() {
        return Some(Word::Opens(Heading::Fields));
    }
    if word == b"events".as_slice() {
        return Some(Word::Opens(Heading::Events));
    }
    entry_under(heading, word)
}
