// The notation of document 01 as text: what its words are, and a text read into lent rows, one pass for each row.
#![tactic(auto)]

ghost use Rattle.std.specs.Prelude.{◌≡◌, ℕ, Option, length, take};
ghost use Rattle.writing.specs.Writing.{rows_given};
ghost use Rattle.spelling.specs.declared.word.Word.{Word};
ghost use Rattle.spelling.specs.Notation.{values_in, words, judged};
ghost use Rattle.spelling.specs.Passes.{Stores, Gives, Holds, Reads};

mod word;
mod words;

use word::Word;
use words::Words;

// No longer text is read: it is bad at this place.
pub const MOST: usize = 262144;

// How many entries stand in the rows.
#[derive(Clone, Copy, Debug, PartialEq, Eq)]
pub struct Lengths {
    pub workers: usize,
    pub fields: usize,
    pub events: usize,
}

// Where the first bad word of a text begins.
#[derive(Clone, Copy, Debug, PartialEq, Eq)]
pub struct BadWord {
    pub place: usize,
}

// Whether a text is notation.
#[tactic(auto, unfolding(crate::specs::Notation::judged, crate::specs::Notation::first_bad))]
fn judge(text: &[u8]) -> Result<(), BadWord>
    ensures { result ≡ judged text.now }
{
    if MOST < text.len() {
        return Err(BadWord { place: MOST });
    }
    for placed in Words::of(text) {
        let place = placed.place;
        placed.word.ok_or(BadWord { place })?;
    }
    Ok(())
}

// Puts a value into a row that has room for it, and answers the next place.
fn store(row: &mut [u32], n: usize, value: Option<u32>) -> usize
    ensures { Stores value n row.old row.new result }
{
    match value {
        Some(x) if n < row.len() => {
            row[n] = x;
            n + 1
        }
        _ => n,
    }
}

// Fills a row with what the words of a text give to it, as much as it has room for, and answers how much that is.
fn fill<F: Fn(Word) -> Option<u32>>(text: &[u8], value: F, row: &mut [u32]) -> usize
    requires { F.IsAlwaysCallable value }
    ensures { (given : Word → Option ℕ) → Gives (F.post value) given → Holds (take (length row.old) (values_in given (words text.now))) row.old row.new result }
{
    // No range goes over the places that are filled: a word may give nothing to the row.
    let mut n = 0;
    for placed in Words::of(text) {
        n = store(row, n, placed.word.and_then(&value));
    }
    n
}

// Reads a text into rows, which have room for one entry more than a recording may have. Each is filled by itself.
#[tactic(auto, unfolding(crate::specs::Notation::said))]
pub fn read(
    text: &[u8],
    worker_labels: &mut [u32; 17],
    field_labels: &mut [u32; 513],
    kinds: &mut [u32; 16001],
    workers: &mut [u32; 16001],
    fields: &mut [u32; 16001],
) -> Result<Lengths, BadWord>
    ensures { Reads text.now (rows_given worker_labels.old field_labels.old kinds.old workers.old fields.old) (rows_given worker_labels.new field_labels.new kinds.new workers.new fields.new) result }
{
    judge(text)?;
    let worker_count = fill(text, Word::worker_label, worker_labels);
    let field_count = fill(text, Word::field_label, field_labels);
    let event_count = fill(text, |word| word.event().map(|e| e.kind), kinds);
    fill(text, |word| word.event().map(|e| e.worker), workers);
    fill(text, |word| word.event().map(|e| e.field), fields);
    Ok(Lengths {
        workers: worker_count,
        fields: field_count,
        events: event_count,
    })
}
