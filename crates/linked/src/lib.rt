// The finders and the writer on plain slices, their answers as rows of six numbers: what `linked_c` exports.
#![tactic(auto)]

ghost use Rattle.std.specs.Prelude.{◌≡◌};
ghost use Rattle.tables.specs.Answers.{said_by};
ghost use Rattle.writing.specs.Writing.{rows_given};
ghost use Rattle.linked.specs.Rows.{refused_row, row_of, written_row, EarlyLinked, LateLinked, WriteLinked};

use recording::refusal::Refusal;
use tables::{Answer, Objection};
use writing::{Events, Rows};

// A C interface has numbers for an enum, and slices one by one for a struct of them.
// What is answered, and then: number and place; nothing; or event, sort, worker, other worker and field.
const REFUSED: u64 = 0;

const ACCEPTED: u64 = 1;

const REPORTED: u64 = 2;

// The writer's: how many bytes.
const WRITTEN: u64 = 1;

fn refused_row(number: u32, place: usize) -> [u64; 6]
    ensures { result ≡ refused_row number place }
{
    [REFUSED, number as u64, place as u64, 0, 0, 0]
}

fn row_of(answer: Answer) -> [u64; 6]
    ensures { result ≡ row_of (said_by answer) }
{
    match answer {
        Err(Objection::Refused(number, place)) => refused_row(number, place),
        Ok(()) => [ACCEPTED, 0, 0, 0, 0, 0],
        Err(Objection::Reported(r)) => [
            REPORTED,
            r.event as u64,
            r.sort as u64,
            r.worker.0 as u64,
            r.other.0 as u64,
            r.field.0 as u64,
        ],
    }
}

pub fn bankmurmur_early(
    file: &[u8],
    stretch: &mut [u32],
    writer: &mut [u32],
    readers: &mut [u32],
    row: &mut [u64; 6],
)
    ensures { EarlyLinked file.now stretch.old writer.old readers.old stretch.new writer.new readers.new row.new }
{
    *row = row_of(early::find(file, stretch, writer, readers));
}

pub fn bankmurmur_late(
    file: &[u8],
    stretch: &mut [u32],
    writer: &mut [u32],
    version: &mut [u32],
    log: &mut [u32],
    row: &mut [u64; 6],
)
    ensures { LateLinked file.now stretch.old writer.old version.old log.old stretch.new writer.new version.new log.new row.new }
{
    *row = row_of(late::find(file, stretch, writer, version, log));
}

fn written_row(answer: Result<usize, Refusal>) -> [u64; 6]
    ensures { result ≡ written_row answer }
{
    match answer {
        Err(r) => refused_row(r.reason.number(), r.place),
        Ok(n) => [WRITTEN, n as u64, 0, 0, 0, 0],
    }
}

pub fn bankmurmur_write(
    worker_labels: &[u32],
    field_labels: &[u32],
    kinds: &[u32],
    workers: &[u32],
    fields: &[u32],
    buffer: &mut [u8],
    row: &mut [u64; 6],
)
    ensures { WriteLinked (rows_given worker_labels.now field_labels.now kinds.now workers.now fields.now) buffer.old buffer.new row.new }
{
    let rows = Rows {
        worker_labels,
        field_labels,
        events: Events {
            kinds,
            workers,
            fields,
        },
    };
    *row = written_row(writing::write(rows, buffer));
}
