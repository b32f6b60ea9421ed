// The finders' requests: a file, lent to both finders with tables of given lengths that hold noise, and answered with every word of every table.
use crate::lent::Lent;
use crate::wire::{Input, Output, low};
use std::io;
use std::io::Read;
use tables::{Answer, Objection};

// The longest table has 8,300 words.
type Table = Lent<u32, 8_300>;

// A table of this length, whose word i is 1 + (noise + i) % 40.
fn make_noisy(table: &mut Table, len: u32, noise: u32) {
    table.fill(len, |i| 1 + (noise % 40 + i % 40) % 40);
}

// The six numbers that begin each half of a response; the protocol has 0, 1 and 2 for refused, accepted and reported.
fn numbers_of(answer: Answer) -> [u32; 6] {
    match answer {
        Err(Objection::Refused(number, place)) => [0, number, low(place), 0, 0, 0],
        Err(Objection::Reported(r)) => [2, r.event, r.sort, r.worker.0, r.other.0, r.field.0],
        Ok(()) => [1, 0, 0, 0, 0, 0],
    }
}

// One half of a response: a finder's answer, and every word of the tables that it was lent.
fn tell(answer: Answer, tables: &[&[u32]], out: &mut Output<impl Print>) -> io::Result<()> {
    out.numbers(&numbers_of(answer))?;
    for table in tables {
        out.numbers(table)?;
    }
    out.send()
}

// The early finder's half. It is lent three tables by position and the late one four, so the two halves are two functions.
fn serve_early(
    file: &[u8],
    lengths: [u32; 3],
    noise: u32,
    out: &mut Output<impl Print>,
) -> io::Result<()> {
    let [stretch_length, writer_length, readers_length] = lengths;
    let mut stretch = Table::new();
    let mut writer = Table::new();
    let mut readers = Table::new();
    make_noisy(&mut stretch, stretch_length, noise);
    make_noisy(&mut writer, writer_length, noise);
    make_noisy(&mut readers, readers_length, noise);
    let answer = early::find(file, stretch.row_mut(), writer.row_mut(), readers.row_mut());
    tell(answer, &[stretch.row(), writer.row(), readers.row()], out)
}

// The late finder's half.
fn serve_late(
    file: &[u8],
    lengths: [u32; 4],
    noise: u32,
    out: &mut Output<impl Print>,
) -> io::Result<()> {
    let [stretch_length, writer_length, version_length, log_length] = lengths;
    let mut stretch = Table::new();
    let mut writer = Table::new();
    let mut version = Table::new();
    let mut log = Table::new();
    make_noisy(&mut stretch, stretch_length, noise);
    make_noisy(&mut writer, writer_length, noise);
    make_noisy(&mut version, version_length, noise);
    make_noisy(&mut log, log_length, noise);
    let answer = late::find(
        file,
        stretch.row_mut(),
        writer.row_mut(),
        version.row_mut(),
        log.row_mut(),
    );
    tell(
        answer,
        &[stretch.row(), writer.row(), version.row(), log.row()],
        out,
    )
}

// Answers a request, of which the lengths of its tables come next, then a file of this size.
pub fn serve(
    size: u32,
    noise: u32,
    input: &mut Input<impl Read>,
    out: &mut Output<impl Print>,
) -> io::Result<()> {
    let mut early = [0; 3];
    input.numbers(&mut early)?;
    let mut late = [0; 4];
    input.numbers(&mut late)?;
    let file = input.bytes(size as usize)?;
    serve_early(file, early, noise, out)?;
    serve_late(file, late, noise, out)
}
