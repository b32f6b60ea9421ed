// The file of a recording: bytes to labels and events, refused by the first test that fails.
#![tactic(auto)]

pub mod event;
pub mod items;
mod numbers;
pub mod refusal;
mod sections;

ghost use Rattle.std.specs.Prelude.{◌≡◌, ◌-◌, ◌<◌, length};
ghost use Rattle.recording.specs.File.{checked, event_of, event_at, worker_label, field_label, Accepted, place_of, step_at, HandsOut};
ghost use Rattle.std.specs.Iterator.{at_most};

use event::Kind;
use events::Event;
use items::LabelRule;
use refusal::Refusal;
use sorts::{Field, Worker};

// An event as the file gives it: three numbers, not tested yet, so that a kind that is none can be told.
#[derive(Clone, Copy)]
pub struct Entry {
    pub kind: u32,
    pub worker: u32,
    pub field: u32,
}

impl Entry {
    // So many bytes each: kind, worker, field (2 bytes).
    pub const BYTES: usize = 4;
}

// How many workers, fields and events a file has.
#[derive(Clone, Copy)]
pub struct Counts {
    pub workers: u32,
    pub fields: u32,
    pub events: u32,
}

// The answer to a whole file, of any length: the first test that fails, or its counts.
pub fn check(file: &[u8]) -> Result<Counts, Refusal>
    ensures { result ≡ checked file.now }
{
    let workers = sections::label_section(file, 0, LabelRule::WORKERS)?;
    let at = 2 + 2 * (workers as usize);
    let fields = sections::label_section(file, at, LabelRule::FIELDS)?;
    sections::check_events(file, workers, fields)
}

// What an event's numbers say; meant for numbers that passed the tests, and so no `From`.
fn event_of(e: Entry) -> Event
    ensures { result ≡ event_of e }
{
    let w = Worker(e.worker);
    let f = Field(e.field);
    match Kind::try_from(e.kind) {
        Ok(Kind::Read) => Event::Read(w, f),
        Ok(Kind::Write) => Event::Write(w, f),
        _ => Event::Crossing(w),
    }
}

// Event n of a file that the check accepted with these counts.
pub fn event_at(file: &[u8], counts: Counts, n: u32) -> Event
    requires { Accepted file.now counts × (n < counts.events) }
    ensures { result ≡ event_at file.now n }
{
    let at = 4 + 2 * (counts.workers as usize) + 2 * (counts.fields as usize);
    event_of(numbers::entry_at(file, at + 2 + Entry::BYTES * (n as usize)))
}

// The label of a worker of a checked file; for a number that is no worker's, what stands where its label would.
pub fn worker_label(file: &[u8], w: Worker) -> u32
    ensures { result ≡ worker_label file.now w.0 }
{
    numbers::any_number_at(file, 2 + 2 * (w.0 as usize))
}

// The label of a field, in the same way.
pub fn field_label(file: &[u8], f: Field) -> u32
    ensures { result ≡ field_label file.now f.0 }
{
    let workers = numbers::any_number_at(file, 0) as usize;
    numbers::any_number_at(file, 2 + 2 * workers + 2 + 2 * (f.0 as usize))
}

// Where a reader of a file with these counts begins: the place of event 0.
pub fn first_place(counts: Counts) -> usize
    ensures { result ≡ place_of counts 0 }
{
    6 + 2 * (counts.workers as usize) + 2 * (counts.fields as usize)
}

// The work of a reader, at a place of the file: the event there, and the place of the next.
pub fn step_at(file: &[u8], at: usize) -> Option<(Event, usize)>
    ensures { result ≡ step_at file.now at }
{
    if file.len() < at {
        return None;
    }
    if file.len() - at < Entry::BYTES {
        return None;
    }
    Some((event_of(numbers::entry_at(file, at)), at + Entry::BYTES))
}

// A reader stands over the lent file and hands out one event at a time: the file, its counts and the place of the next event.
#[derive(Clone, Copy)]
pub struct Reader<'a> {
    pub file: &'a [u8],
    pub counts: Counts,
    pub at: usize,
}

impl<'a> Reader<'a> {
    pub fn new(file: &'a [u8], counts: Counts, at: usize) -> Reader<'a>
        ensures { result ≡ record { file = file.entry; counts = counts; at = at } }
    {
        Reader { file, counts, at }
    }

    // The reader at another place.
    pub fn moved(self, at: usize) -> Reader<'a>
        ensures { result ≡ record { file = self.entry.file; counts = self.entry.counts; at = at } }
    {
        Reader { at, ..self }
    }
}

impl Iterator for Reader<'_> {
    type Item = Event;

    ghost next_gives = { HandsOut };

    ghost remaining = { λ r. at_most (length r.file.now - r.at) };

    fn next(&mut self) -> Option<Event> {
        let (event, next) = step_at(self.file, self.at)?;
        self.at = next;
        Some(event)
    }
}

// What a reader over the file hands out at a place, told by plain parameters, and the place of the next.
pub fn read(file: &[u8], counts: Counts, at: usize) -> Option<(Event, usize)>
    ensures { result ≡ step_at file.now at }
{
    let mut reader = Reader::new(file, counts, at);
    let event = reader.next()?;
    Some((event, reader.at))
}
