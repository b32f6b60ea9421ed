// The writer's requests: rows of labels and events, written into a buffer that holds noise. What was written is read back and written again.
ghost use Rattle.recording.specs.File.{Accepted};

use crate::lent::Lent;
use crate::wire::{Input, Output, low};
use events::Event;
use recording::event::Kind;
use recording::{Counts, Entry};
use sorts::{Field, Worker};
use std::io;
use std::io::{ErrorKind, Read};
use tables::{FIELDS, WORKERS};
use writing::{Events, Rows};

// The longest buffer has 70,000 bytes.
type Buffer = Lent<u8, 70_000>;

// A buffer of this length, whose byte i is (noise + i) % 251; the finders' tables hold another noise.
fn make_noisy(buffer: &mut Buffer, len: u32, noise: u32) {
    buffer.fill(len, |i| ((noise % 251 + i % 251) % 251) as u8);
}

// Five rows of these lengths, one after another; none where there are too few words.
fn cut(mut words: &[u32], lengths: [u32; 5]) -> Option<Rows<'_>> {
    let [worker_labels, field_labels, kinds, workers, fields] = lengths;
    let mut next = |len: u32| words.split_off(..len as usize);
    Some(Rows {
        worker_labels: next(worker_labels)?,
        field_labels: next(field_labels)?,
        events: Events {
            kinds: next(kinds)?,
            workers: next(workers)?,
            fields: next(fields)?,
        },
    })
}

// What the writer makes of the rows in this buffer: its answer, and every byte of the buffer. Says how many bytes it wrote, if it wrote.
fn tell_written(
    rows: Rows<'_>,
    buffer: &mut [u8],
    out: &mut Output<impl Print>,
) -> io::Result<Option<usize>> {
    let answer = writing::write(rows, buffer);
    let numbers = match answer {
        Err(r) => [0, r.reason.number(), low(r.place)],
        Ok(n) => [1, low(n), 0],
    };
    out.numbers(&numbers)?;
    out.bytes(buffer)?;
    out.send()?;
    Ok(answer.ok())
}

// An event's numbers; a crossing has field 0.
fn entry_of(e: Event) -> Entry {
    let (kind, worker, field) = match e {
        Event::Read(w, f) => (Kind::Read, w, f),
        Event::Write(w, f) => (Kind::Write, w, f),
        Event::Crossing(w) => (Kind::Crossing, w, Field(0)),
    };
    Entry {
        kind: kind.number(),
        worker: worker.0,
        field: field.0,
    }
}

// The longest row of events that a file has.
const EVENTS: usize = Event::LIMIT as usize;

// The rows of a file that the check accepted.
#[derive(Drop)]
struct Back {
    worker_labels: Lent<u32, WORKERS>,
    field_labels: Lent<u32, FIELDS>,
    kinds: Lent<u32, EVENTS>,
    workers: Lent<u32, EVENTS>,
    fields: Lent<u32, EVENTS>,
}

impl Back {
    fn new() -> Back {
        Back {
            worker_labels: Lent::new(),
            field_labels: Lent::new(),
            kinds: Lent::new(),
            workers: Lent::new(),
            fields: Lent::new(),
        }
    }

    fn read(&mut self, file: &[u8], counts: Counts)
        requires { Accepted file.now counts }
    {
        let entry = |n| entry_of(recording::event_at(file, counts, n));
        self.worker_labels.fill(counts.workers, |i| recording::worker_label(file, Worker(i)));
        self.field_labels
            .fill(counts.fields, |i| recording::field_label(file, Field(i)));
        self.kinds.fill(counts.events, |n| entry(n).kind);
        self.workers.fill(counts.events, |n| entry(n).worker);
        self.fields.fill(counts.events, |n| entry(n).field);
    }

    fn rows(&self) -> Rows<'_> {
        Rows {
            worker_labels: self.worker_labels.row(),
            field_labels: self.field_labels.row(),
            events: Events {
                kinds: self.kinds.row(),
                workers: self.workers.row(),
                fields: self.fields.row(),
            },
        }
    }
}

// The counts of the file read back, and its rows.
fn tell_rows(counts: Counts, rows: Rows<'_>, out: &mut Output<impl Print>) -> io::Result<()> {
    out.numbers(&[1, counts.workers, counts.fields, counts.events])?;
    out.numbers(rows.worker_labels)?;
    out.numbers(rows.field_labels)?;
    out.numbers(rows.events.kinds)?;
    out.numbers(rows.events.workers)?;
    out.numbers(rows.events.fields)?;
    out.send()
}

// What was written is read back, and written again in a second buffer of this length and noise.
fn tell_file(file: &[u8], len: u32, noise: u32, out: &mut Output<impl Print>) -> io::Result<()> {
    match recording::check(file) {
        Err(r) => {
            out.numbers(&[0, r.reason.number(), low(r.place), 0])?;
            out.send()
        }
        Ok(counts) => {
            let mut back = Back::new();
            back.read(file, counts);
            tell_rows(counts, back.rows(), out)?;
            let mut buffer = Buffer::new();
            make_noisy(&mut buffer, len, noise);
            tell_written(back.rows(), buffer.row_mut(), out)?;
            Ok(())
        }
    }
}

// The response to the rows, by way of two buffers of these lengths.
fn respond(
    rows: Rows<'_>,
    lengths: [u32; 2],
    noise: u32,
    out: &mut Output<impl Print>,
) -> io::Result<()> {
    let [first_length, second_length] = lengths;
    // The greatest noise, so that there is one above it for the second buffer.
    let noise = noise.min(70_000);
    let mut buffer = Buffer::new();
    make_noisy(&mut buffer, first_length, noise);
    let first = buffer.row_mut();
    let Some(n) = tell_written(rows, first, out)? else {
        return Ok(());
    };
    let file = first.get(..n).ok_or(ErrorKind::InvalidData)?;
    tell_file(file, second_length, noise + 125, out)
}

// The longest rows of a request, all five together.
pub const MOST: usize = 66_000;

// Answers a request, of which the lengths of its five rows come next, those of two buffers, and the rows, which come to stand in these words.
pub fn serve(
    noise: u32,
    words: &mut [u32; MOST],
    input: &mut Input<impl Read>,
    out: &mut Output<impl Print>,
) -> io::Result<()> {
    let mut lengths = [0; 5];
    input.numbers(&mut lengths)?;
    let mut buffers = [0; 2];
    input.numbers(&mut buffers)?;
    let total = lengths
        .iter()
        .fold(0, |sum: usize, len| sum.saturating_add(*len as usize));
    let words = words.get_mut(..total).ok_or(ErrorKind::InvalidInput)?;
    input.numbers(words)?;
    let rows = cut(words, lengths).ok_or(ErrorKind::InvalidInput)?;
    respond(rows, buffers, noise, out)
}
