// The writer: rows of labels and events to the file of a recording, refused by the first test that fails.
#![tactic(auto)]

mod checks;
mod put;

ghost use Rattle.std.specs.Prelude.{◌≡◌, ◌<◌};
ghost use Rattle.writing.specs.Writing.{rows_lent, Writes};
ghost use Rattle.writing.specs.Parts.{count_of, whole_of, event_in};

use recording::Entry;
use recording::items::Items;
use recording::refusal::{Reason, Refusal};

// The events that are to be written: three rows of numbers, their kinds, workers and fields, as a C program lends them.
#[derive(Clone, Copy)]
pub struct Events<'a> {
    pub kinds: &'a [u32],
    pub workers: &'a [u32],
    pub fields: &'a [u32],
}

impl Events<'_> {
    // There are as many as the longest row has numbers.
    fn count(self) -> usize
        ensures { result ≡ count_of self.entry }
    {
        self.kinds
            .len()
            .max(self.workers.len().max(self.fields.len()))
    }

    // As many as the shortest row has are whole.
    fn whole(self) -> usize
        ensures { result ≡ whole_of self.entry }
    {
        self.kinds
            .len()
            .min(self.workers.len().min(self.fields.len()))
    }
}

// The numbers of each event that is whole.
impl Items<Entry> for Events<'_> {
    ghost count = { whole_of };

    ghost item = { event_in };

    fn item(&self, n: usize) -> Entry {
        Entry {
            kind: self.kinds[n],
            worker: self.workers[n],
            field: self.fields[n],
        }
    }
}

// The labels and events that are to be written.
#[derive(Clone, Copy)]
pub struct Rows<'a> {
    pub worker_labels: &'a [u32],
    pub field_labels: &'a [u32],
    pub events: Events<'a>,
}

// Writes the file of these labels and events into the buffer, and answers how many bytes that are; or refuses them and leaves the buffer as it was.
pub fn write(rows: Rows, buffer: &mut [u8]) -> Result<usize, Refusal>
    ensures { Writes (rows_lent rows.entry) buffer.old result buffer.new }
{
    checks::check(rows)?;
    let fields_at = 2 + 2 * rows.worker_labels.len();
    let events_at = fields_at + 2 + 2 * rows.field_labels.len();
    let size = events_at + 2 + Entry::BYTES * rows.events.count();
    if buffer.len() < size {
        return Err(Reason::ShortBuffer.at(0));
    }
    put::labels(buffer, 0, rows.worker_labels);
    put::labels(buffer, fields_at, rows.field_labels);
    put::events(buffer, events_at, rows.events);
    Ok(size)
}
