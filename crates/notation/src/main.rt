// The program: reads lines of the notation for recordings from standard input, and writes the recording file to standard output.
#![tactic(auto)]

ghost use Rattle.std.specs.Prelude.{◌≡◌};
ghost use Rattle.spelling.specs.Notation.{said};
ghost use Rattle.notation.specs.declared.NoFile.TheVariants.{Notation, Refused};
ghost use Rattle.notation.specs.Program.{Makes};

use recording::refusal::Refusal;
use spelling::BadWord;
use std::fmt;
use writing::{Events, Rows};

// Why a text makes no file.
#[derive(Clone, Copy, Debug, PartialEq, Eq)]
enum NoFile {
    Notation(BadWord),
    // By the writer.
    Refused(Refusal),
}

impl From<BadWord> for NoFile {
    ghost from_gives = { λ word e. e ≡ Notation word };

    fn from(word: BadWord) -> NoFile {
        NoFile::Notation(word)
    }
}

impl From<Refusal> for NoFile {
    ghost from_gives = { λ refusal e. e ≡ Refused refusal };

    fn from(refusal: Refusal) -> NoFile {
        NoFile::Refused(refusal)
    }
}

impl fmt::Display for NoFile {
    fn fmt<W: fmt::Write>(&self, f: &mut fmt::Formatter<W>) -> fmt::Result {
        match self {
            NoFile::Notation(bad) => write!(f, "notation {}", bad.place),
            NoFile::Refused(r) => write!(f, "refused {} {}", r.reason.number(), r.place),
        }
    }
}

// The file of a text, so many bytes at the start of the buffer. Rows and buffer are arrays: there is no heap.
fn make(text: &[u8], buffer: &mut [u8]) -> Result<usize, NoFile>
    ensures { Makes (said text.now) buffer.old buffer.new result }
{
    let mut worker_labels = [0u32; 17];
    let mut field_labels = [0u32; 513];
    let mut kinds = [0u32; 16001];
    let mut workers = [0u32; 16001];
    let mut fields = [0u32; 16001];
    let lengths = spelling::read(
        text,
        &mut worker_labels,
        &mut field_labels,
        &mut kinds,
        &mut workers,
        &mut fields,
    )?;
    let events = lengths.events;
    let rows = Rows {
        worker_labels: &worker_labels[..lengths.workers],
        field_labels: &field_labels[..lengths.fields],
        events: Events {
            kinds: &kinds[..events],
            workers: &workers[..events],
            fields: &fields[..events],
        },
    };
    Ok(writing::write(rows, buffer)?)
}

// The file, in one piece.
fn print_file(rt: &(impl Print + Eprint), file: &[u8]) {
    if rt.write_all(file).is_err() {
        let _ = eprintln!(rt; "notation: cannot write standard output");
    }
}

// The file of a text, or a line on standard error that says why there is none.
fn answer(rt: &(impl Print + Eprint), text: &[u8]) {
    // No file is longer: 6 + 2 * 16 + 2 * 512 + 4 * 16000.
    let mut buffer = [0u8; 65062];
    match make(text, &mut buffer) {
        Err(reason) => {
            let _ = eprintln!(rt; "{reason}");
        }
        Ok(n) => print_file(rt, &buffer[..n]),
    }
}

// One byte more than a text may have, so that a longer text is seen to be too long.
fn main(rt: HostRuntime) {
    let mut text = [0u8; spelling::MOST + 1];
    match input::read(&mut rt.stdin(), &mut text) {
        Err(_) => {
            let _ = eprintln!(rt; "notation: cannot read standard input");
        }
        Ok(n) => answer(&rt, &text[..n]),
    }
}
