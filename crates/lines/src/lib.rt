// The printed lines, formed in a lent buffer: each word goes behind the last, and no other byte changes.
#![tactic(auto)]

ghost use Rattle.std.specs.Prelude.{◌≡◌, [], ◌∷◌, ◌++◌, ◌+◌, ◌≤◌, length};
ghost use Rattle.recording.specs.File.{worker_label, field_label};
ghost use Rattle.tables.specs.Answers.{report_of, said_by};
ghost use Rattle.byte_rows.specs.Characters.{ascii};
ghost use Rattle.lines.specs.Text.{decimal, rest, PutsOn, Starts};
ghost use Rattle.lines.specs.Lines.{trace_line, refused_line, other_label, verdict_line, answer_line, report_lines};

use recording::Counts;
use sorts::{Field, Worker};
use tables::{Answer, Objection, Report};

// Bytes of a buffer that holds every report: numbers have at most 20 digits, so three lines have fewer than 300 bytes.
pub const SIZE: usize = 512;

// A page in the making: the lent buffer, and where its next byte goes. It is no `fmt::Write`, since what is lent has room for all that is
// put, and who prints has no error to answer.
#[derive(Drop)]
struct Page<'a> {
    bytes: &'a mut [u8],
    at: usize,
}

impl Page<'_> {
    fn put(&mut self, word: &[u8])
        requires { self.old.at + length word.now ≤ length self.old.bytes.now }
        ensures { PutsOn (length word.now) word.now self.old self.new }
    {
        let end = self.at + word.len();
        self.bytes[self.at..end].copy_from_slice(word);
        self.at = end;
    }

    // A number after a space.
    fn number(&mut self, n: u64)
        requires { self.old.at + 21 ≤ length self.old.bytes.now }
        ensures { PutsOn 21 (ascii " " ++ decimal n) self.old self.new }
    {
        self.put(b" ");
        let mut digits = [0u8; 20];
        let k = io::decimal(n, &mut digits);
        self.put(&digits[..k]);
    }

    // The other worker's label after a space.
    fn other_label(&mut self, file: &[u8], u: Worker)
        requires { self.old.at + 21 ≤ length self.old.bytes.now }
        ensures { PutsOn 21 (ascii " " ++ other_label file.now u.0) self.old self.new }
    {
        if u == Worker::NOT_RECORDED {
            self.put(b" -");
        } else {
            self.number(recording::worker_label(file, u) as u64);
        }
    }

    fn trace_line(&mut self, counts: Counts)
        requires { self.old.at + 69 ≤ length self.old.bytes.now }
        ensures { PutsOn 69 (trace_line counts) self.old self.new }
    {
        self.put(b"trace");
        self.number(counts.workers as u64);
        self.number(counts.fields as u64);
        self.number(counts.events as u64);
        self.put(b"\n");
    }

    fn refused_line(&mut self, no: u32, place: usize)
        requires { self.old.at + 50 ≤ length self.old.bytes.now }
        ensures { PutsOn 50 (refused_line no place) self.old self.new }
    {
        self.put(b"refused");
        self.number(no as u64);
        self.number(place as u64);
        self.put(b"\n");
    }

    // Worker label, other worker's label and field label, to the line's end.
    fn labels(&mut self, file: &[u8], w: Worker, u: Worker, f: Field)
        requires { self.old.at + 64 ≤ length self.old.bytes.now }
        ensures { PutsOn 64 (rest (decimal (worker_label file.now w.0) ∷ other_label file.now u.0 ∷ decimal (field_label file.now f.0) ∷ [])) self.old self.new }
    {
        self.number(recording::worker_label(file, w) as u64);
        self.other_label(file, u);
        self.number(recording::field_label(file, f) as u64);
        self.put(b"\n");
    }

    fn reported_line(&mut self, file: &[u8], name: &[u8], r: Report)
        requires { (length name.now ≤ 5) × (self.old.at + 111 ≤ length self.old.bytes.now) }
        ensures { PutsOn 111 (verdict_line file.now name.now (report_of r)) self.old self.new }
    {
        self.put(name);
        self.number(r.event as u64);
        self.number(r.sort as u64);
        self.labels(file, r.worker, r.other, r.field);
    }

    // The line of a finder's answer, after the finder's name.
    fn answer_line(&mut self, file: &[u8], name: &[u8], answer: Answer)
        requires { (length name.now ≤ 5) × (self.old.at + 111 ≤ length self.old.bytes.now) }
        ensures { PutsOn 111 (answer_line file.now name.now (said_by answer)) self.old self.new }
    {
        match answer {
            Ok(()) => {
                self.put(name);
                self.put(b" ok\n");
            }
            Err(Objection::Refused(no, place)) => self.refused_line(no, place),
            Err(Objection::Reported(r)) => self.reported_line(file, name, r),
        }
    }
}

// The one line of a refused file: of any number and place that it is given.
pub fn refused(out: &mut [u8; SIZE], no: u32, place: usize) -> usize
    ensures { Starts (refused_line no place) out.old out.new result }
{
    let mut page = Page { bytes: out, at: 0 };
    page.refused_line(no, place);
    page.at
}

// The three lines of a file with these counts, to which the two finders gave these answers.
pub fn report(
    out: &mut [u8; SIZE],
    file: &[u8],
    counts: Counts,
    early: Answer,
    late: Answer,
) -> usize
    ensures { Starts (report_lines file.now counts (said_by early) (said_by late)) out.old out.new result }
{
    let mut page = Page { bytes: out, at: 0 };
    page.trace_line(counts);
    page.answer_line(file, b"early", early);
    page.answer_line(file, b"late", late);
    page.at
}
