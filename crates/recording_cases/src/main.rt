// The edges of a recording file, each a case by name. What the check answers is printed, and held to the file stdout.
// Where standard output fails a line is lost, and the cases go on.
#![tactic(auto)]

ghost use Rattle.recording.specs.File.{Accepted};

use events::Event;
use recording::{Counts, Reader};
use std::io;
use std::io::{Cursor, Write};

// Files, each by name.
static CASES: [(&str, &[u8]); 37] = [
    // The worker section.
    ("empty file", b""),
    ("one byte", b"\x01"),
    ("no worker", b"\x00\x00"),
    ("worker count 17, before its labels", b"\x11\x00"),
    (
        "worker labels missing, before their order",
        b"\x03\x00\x05\x00\x05\x00",
    ),
    ("two equal worker labels", b"\x02\x00\x05\x00\x05\x00"),
    (
        "worker labels fall by the high byte",
        b"\x02\x00\x00\x01\xff\x00",
    ),
    (
        "worker labels rise by the high byte",
        b"\x02\x00\xff\x00\x00\x01\x01\x00\x00\x00\x00\x00",
    ),
    (
        "worker labels, before the field count",
        b"\x02\x00\x07\x00\x06\x00",
    ),
    // The field section.
    ("field count missing", b"\x01\x00\x00\x00"),
    ("half a field count", b"\x01\x00\x00\x00\x01"),
    ("no field", b"\x01\x00\x00\x00\x00\x00"),
    (
        "field count 513, before its labels",
        b"\x01\x00\x00\x00\x01\x02",
    ),
    (
        "field labels missing, before their order",
        b"\x01\x00\x00\x00\x03\x00\x05\x00\x05\x00\x06",
    ),
    (
        "two equal field labels",
        b"\x01\x00\x00\x00\x02\x00\x05\x00\x05\x00",
    ),
    (
        "third field label falls",
        b"\x01\x00\x00\x00\x03\x00\x05\x00\x06\x00\x00\x00",
    ),
    // The event count, and what follows the events.
    ("event count missing", b"\x01\x00\x00\x00\x01\x00\x00\x00"),
    (
        "half an event count",
        b"\x01\x00\x00\x00\x01\x00\x00\x00\x00",
    ),
    ("no event", b"\x01\x00\x00\x00\x01\x00\x00\x00\x00\x00"),
    (
        "event count 16001, before its events",
        b"\x01\x00\x00\x00\x01\x00\x00\x00\x81\x3e",
    ),
    (
        "events missing, before their kinds",
        b"\x01\x00\x00\x00\x01\x00\x00\x00\x02\x00\x09\x09\x09\x09",
    ),
    (
        "bad event, before extra bytes",
        b"\x01\x00\x00\x00\x01\x00\x00\x00\x02\x00\x01\x00\x00\x00\x09\x00\x00\x00\x00",
    ),
    (
        "extra byte",
        b"\x01\x00\x00\x00\x01\x00\x00\x00\x00\x00\x07",
    ),
    (
        "extra byte after an event",
        b"\x01\x00\x00\x00\x01\x00\x00\x00\x01\x00\x01\x00\x00\x00\x00\x00",
    ),
    // Within an event.
    (
        "kind 0",
        b"\x01\x00\x00\x00\x01\x00\x00\x00\x01\x00\x00\x00\x00\x00",
    ),
    (
        "kind 3 is the last kind",
        b"\x01\x00\x00\x00\x01\x00\x00\x00\x01\x00\x03\x00\x00\x00",
    ),
    (
        "kind 4",
        b"\x01\x00\x00\x00\x01\x00\x00\x00\x01\x00\x04\x00\x00\x00",
    ),
    (
        "kind, worker and field all bad",
        b"\x01\x00\x00\x00\x01\x00\x00\x00\x01\x00\x00\x01\x01\x00",
    ),
    (
        "worker not below the count",
        b"\x01\x00\x00\x00\x01\x00\x00\x00\x01\x00\x01\x01\x00\x00",
    ),
    (
        "worker and field bad",
        b"\x01\x00\x00\x00\x01\x00\x00\x00\x01\x00\x02\x01\x01\x00",
    ),
    (
        "field not below the count",
        b"\x01\x00\x00\x00\x01\x00\x00\x00\x01\x00\x02\x00\x01\x00",
    ),
    (
        "only the high byte of the field bad",
        b"\x01\x00\x00\x00\x01\x00\x00\x00\x01\x00\x01\x00\x00\x01",
    ),
    (
        "a crossing with field 1",
        b"\x01\x00\x00\x00\x02\x00\x00\x00\x01\x00\x01\x00\x03\x00\x01\x00",
    ),
    (
        "first bad event, before a lower number later",
        b"\x01\x00\x00\x00\x01\x00\x00\x00\x02\x00\x01\x00\x01\x00\x00\x00\x00\x00",
    ),
    (
        "second event bad",
        b"\x01\x00\x00\x00\x01\x00\x00\x00\x02\x00\x01\x00\x00\x00\x01\x01\x00\x00",
    ),
    (
        "second event bad by its kind",
        b"\x01\x00\x00\x00\x01\x00\x00\x00\x02\x00\x01\x00\x00\x00\x04\x01\x01\x00",
    ),
    (
        "second event bad by its field",
        b"\x01\x00\x00\x00\x01\x00\x00\x00\x02\x00\x01\x00\x00\x00\x02\x00\x00\x01",
    ),
];

// The printed example.
static EXAMPLE: [u8; 28] =
    *b"\x02\x00\x0a\x00\x0b\x00\x01\x00\x07\x00\x04\x00\x01\x00\x00\x00\x02\x01\x00\x00\x03\x01\x00\x00\x03\x00\x00\x00";

// The limits themselves: so many workers, fields and reads, and so many bytes.
static LIMIT_CASES: [(&str, [u16; 3], usize); 7] = [
    ("worker count 16", [16, 1, 0], 40),
    ("field count 512", [1, 512, 0], 1032),
    ("16000 events", [1, 1, 16000], 64010),
    ("16001 events", [1, 1, 16001], 64014),
    ("longest file", [16, 512, 16000], 65062),
    ("longest file and one byte", [16, 512, 16000], 65063),
    ("as many bytes as are read", [1, 1, 0], 65536),
];

// The case's name and what the check answers.
fn case(rt: &impl Print, name: &str, file: &[u8]) {
    let _ = match recording::check(file) {
        Ok(c) => println!(rt; "{name}: fine {} {} {}", c.workers, c.fields, c.events),
        Err(r) => println!(rt; "{name}: refused {} {}", r.reason.number(), r.place),
    };
}

// An event by its labels.
fn event(rt: &impl Print, file: &[u8], e: Event) {
    let worker = |w| recording::worker_label(file, w);
    let field = |f| recording::field_label(file, f);
    let _ = match e {
        Event::Read(w, f) => print!(rt; " read {} {}", worker(w), field(f)),
        Event::Write(w, f) => print!(rt; " write {} {}", worker(w), field(f)),
        Event::Crossing(w) => print!(rt; " crossing {}", worker(w)),
    };
}

// The events of a file that is accepted, each asked for by its number.
fn events_of(rt: &impl Print, file: &[u8], counts: Counts)
    requires { Accepted file.now counts }
{
    for n in 0..counts.events {
        event(rt, file, recording::event_at(file, counts, n));
    }
}

// The same events through the reader, and what it says after the last.
fn read_all(rt: &impl Print, file: &[u8], counts: Counts) {
    let mut reader = Reader::new(file, counts, recording::first_place(counts));
    for e in &mut reader {
        event(rt, file, e);
    }
    if recording::read(file, counts, reader.at).is_none() {
        let _ = print!(rt; " end");
    }
}

// The printed example: its answer, and its events in two ways.
fn example(rt: &impl Print, file: &[u8]) {
    case(rt, "printed example", file);
    if let Ok(counts) = recording::check(file) {
        let _ = print!(rt; "its events:");
        events_of(rt, file, counts);
        let _ = print!(rt; "\nits events by the reader:");
        read_all(rt, file, counts);
        let _ = println!(rt; "");
    }
}

// A section of so many labels after its count; each label is its own number.
fn put_labels(file: &mut impl Write, count: u16) -> io::Result<()> {
    file.write_all(&count.to_le_bytes())?;
    for label in 0..count {
        file.write_all(&label.to_le_bytes())?;
    }
    Ok(())
}

// The events after their count; each is worker 0's read of field 0, of four bytes, where a label has two.
fn put_reads(file: &mut impl Write, count: u16) -> io::Result<()> {
    file.write_all(&count.to_le_bytes())?;
    for _ in 0..count {
        file.write_all(&[1, 0, 0, 0])?;
    }
    Ok(())
}

// The case of the first bytes of a file of so many workers, fields and reads. There is no heap, so it is an array.
fn built(
    rt: &impl Print,
    name: &str,
    [workers, fields, reads]: [u16; 3],
    size: usize,
) -> io::Result<()> {
    let mut file = Cursor::new([0; 65536]);
    put_labels(&mut file, workers)?;
    put_labels(&mut file, fields)?;
    put_reads(&mut file, reads)?;
    if let Some(start) = file.get_ref().get(..size) {
        case(rt, name, start);
    }
    Ok(())
}

fn limit_cases(rt: &impl Print) -> io::Result<()> {
    for (name, counts, size) in &LIMIT_CASES {
        built(rt, name, *counts, *size)?;
    }
    Ok(())
}

fn main(rt: HostRuntime) {
    for (name, file) in &CASES {
        case(&rt, name, file);
    }
    example(&rt, &EXAMPLE);
    let _ = limit_cases(&rt);
}
