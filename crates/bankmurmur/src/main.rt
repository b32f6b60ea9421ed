// The program: reads a recording from standard input, and prints its counts and what both finders say of it.
#![tactic(auto)]

ghost use Rattle.std.specs.Prelude.{◌≡◌, true};
ghost use Rattle.recording.specs.File.{refusal};
ghost use Rattle.tables.specs.Answers.{said_by};
ghost use Rattle.tables.specs.Finds.{early_of, late_of, said};
ghost use Rattle.lines.specs.Text.{Starts};
ghost use Rattle.lines.specs.Lines.{printed};

use tables::Answer;

// What each finder says of a file, with tables of its own: three and four, of other lengths, lent by position, so they are two functions.
// The tables are arrays, as everywhere: there is no heap.
fn early_answer(file: &[u8]) -> Answer
    ensures { said_by result ≡ said (refusal true file.now) (early_of file.now) }
{
    let mut stretch = [0u32; tables::WORKERS];
    let mut writer = [0u32; tables::FIELDS];
    let mut readers = [0u32; tables::PAIRS];
    early::find(file, &mut stretch, &mut writer, &mut readers)
}

fn late_answer(file: &[u8]) -> Answer
    ensures { said_by result ≡ said (refusal true file.now) (late_of file.now) }
{
    let mut stretch = [0u32; tables::WORKERS];
    let mut writer = [0u32; tables::FIELDS];
    let mut version = [0u32; tables::FIELDS];
    let mut log = [0u32; tables::PAIRS];
    late::find(file, &mut stretch, &mut writer, &mut version, &mut log)
}

// All that is printed for a file, at the start of the buffer; answers its length.
fn answer(file: &[u8], out: &mut [u8; lines::SIZE]) -> usize
    ensures { Starts (printed file.now) out.old out.new result }
{
    match recording::check(file) {
        Err(r) => lines::refused(out, r.reason.number(), r.place),
        Ok(counts) => {
            let early = early_answer(file);
            let late = late_answer(file);
            lines::report(out, file, counts, early, late)
        }
    }
}

// The answer goes out in one piece. No well-formed file fills the buffer, so what is past it changes no answer.
fn main(rt: HostRuntime) {
    let mut buffer = [0u8; 65536];
    match input::read(&mut rt.stdin(), &mut buffer) {
        Err(_) => {
            let _ = eprintln!(rt; "bankmurmur: cannot read standard input");
        }
        Ok(n) => {
            let mut out = [0u8; lines::SIZE];
            let length = answer(&buffer[..n], &mut out);
            if rt.write_all(&out[..length]).is_err() {
                let _ = eprintln!(rt; "bankmurmur: cannot write standard output");
            }
        }
    }
}
