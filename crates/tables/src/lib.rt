// The tables lent to the finders: the stretch and writer words that both keep, and what they say of open stretches.
// Everything here goes by the words alone, whatever they are. The bounds stand in the contracts and not in types: those would shut out
// values that may be given here, as worker 16 and a table of any length.
#![tactic(auto)]

ghost use Rattle.std.specs.Prelude.{◌≡◌, ◌+◌, ◌*◌, ◌<◌, ◌≤◌, length, get_or, set};
ghost use Rattle.sorts.specs.Words.{joined};
ghost use Rattle.events.specs.Verdicts.{accepted, reported, or_else};
ghost use Rattle.tables.specs.Answers.{found_of, sort_number, verdict_of, judged, said_by};
ghost use Rattle.tables.specs.Steps.{is_open, writer_by};
ghost use Rattle.tables.specs.Lent.{filled};

use recording::refusal::Refusal;
use sorts::{Epoch, Field, Stretch, Worker};

// The full lengths of the tables: a word for each worker, for each field, or for each field and worker.
pub const WORKERS: usize = Worker::LIMIT as usize;

pub const FIELDS: usize = Field::LIMIT as usize;

pub const PAIRS: usize = FIELDS * WORKERS;

// The word of worker w and field f stands here, in a table with a word for each field and worker.
pub fn place(w: Worker, f: Field) -> usize
    requires { (w.0 < 16) × (f.0 < 512) }
    ensures { result ≡ 16 * f.0 + w.0 }
{
    (Worker::LIMIT * f.0 + w.0) as usize
}

// The sorts of clash, by the access that clashes and the earlier one, of another worker, that it meets.
#[derive(Clone, Copy, Debug, PartialEq, Eq)]
pub enum Sort {
    WriteAfterWrite,
    WriteAfterRead,
    ReadAfterWrite,
}

impl Sort {
    // Document 01's number of the sort; it has a name, as that of a kind.
    pub fn number(self) -> u32
        ensures { result ≡ sort_number self }
    {
        match self {
            Sort::WriteAfterWrite => 1,
            Sort::WriteAfterRead => 2,
            Sort::ReadAfterWrite => 3,
        }
    }
}

// A clash: its event, document 01's number of its sort, the worker that made the access, the other worker, and the field.
#[derive(Clone, Copy, Debug, PartialEq, Eq)]
pub struct Report {
    pub event: u32,
    pub sort: u32,
    pub worker: Worker,
    // Where nobody is known: `Worker::NOT_RECORDED`.
    pub other: Worker,
    pub field: Field,
}

// What is said of a recording that is well-formed: nothing, or its first clash.
pub type Verdict = Result<(), Report>;

// Why a file is not accepted: document 01's number of the refusal and its place, or the clash. What prints or hands on an answer takes any
// numbers, so they are numbers here; who refuses or reports names a `Reason` or a `Sort`.
#[derive(Clone, Copy, Debug, PartialEq, Eq)]
pub enum Objection {
    Refused(u32, usize),
    Reported(Report),
}

impl From<Refusal> for Objection {
    ghost use Rattle.recording.specs.Refusals.{number_of};
    ghost use Rattle.tables.specs.declared.Objection.TheVariants.{Refused};

    ghost from_gives = { λ r o. o ≡ Refused (number_of r.reason) r.place };

    fn from(r: Refusal) -> Objection {
        Objection::Refused(r.reason.number(), r.place)
    }
}

impl From<Report> for Objection {
    ghost use Rattle.tables.specs.declared.Objection.TheVariants.{Reported};

    ghost from_gives = { λ r o. o ≡ Reported r };

    fn from(r: Report) -> Objection {
        Objection::Reported(r)
    }
}

// A finder's answer to any file and any tables.
pub type Answer = Result<(), Objection>;

// The answer to a file whose recording got this verdict.
pub fn answer_to(v: Verdict) -> Answer
    ensures { said_by result ≡ judged (verdict_of v) }
{
    v?;
    Ok(())
}

// An access of this worker to this field clashes if another worker was found.
pub fn clash(event: u32, sort: Sort, worker: Worker, found: Option<Worker>, field: Field) -> Verdict
    ensures { verdict_of result ≡ or_else (found_of found) (λ u. reported event (sort_number sort) worker.0 u field.0) accepted }
{
    match found {
        None => Ok(()),
        Some(other) => Err(Report {
            event,
            sort: sort.number(),
            worker,
            other,
            field,
        }),
    }
}

// Is stretch n of worker w open? Stretch 0 never is. The worker's word is tested for 0 and not n, since it hardly ever is 0 and n often.
#[tactic(auto, unfolding(crate::specs::Steps::is_open))]
pub fn is_open(stretch: &[u32], workers: u32, w: Worker, n: Stretch) -> bool
    requires { (w.0 < 16) × (16 ≤ length stretch.now) }
    ensures { result ≡ is_open workers stretch.now w.0 n.0 }
{
    if workers <= w.0 {
        return false;
    }
    let open = stretch[w.0 as usize];
    open != 0 && n == Stretch(open)
}

// The last writer of field f, if it is another worker than w and its stretch is open.
#[tactic(auto, unfolding(crate::specs::Steps::writer_named))]
pub fn other_writer(
    stretch: &[u32],
    writer: &[u32],
    workers: u32,
    w: Worker,
    f: Field,
) -> Option<Worker>
    requires { (f.0 < 512) × (16 ≤ length stretch.now) × (512 ≤ length writer.now) }
    ensures { found_of result ≡ writer_by workers stretch.now writer.now w.0 f.0 }
{
    let last = Epoch::part(writer[f.0 as usize]);
    if last.worker == w {
        return None;
    }
    is_open(stretch, workers, last.worker, last.stretch).then_some(last.worker)
}

// The writer word of worker w's open stretch.
pub fn writer_word(stretch: &[u32], w: Worker) -> u32
    requires { (w.0 < 16) × (16 ≤ length stretch.now) × (get_or stretch.now w.0 0 < 268435456) }
    ensures { result ≡ joined (get_or stretch.now w.0 0) w.0 }
{
    let open = Epoch {
        stretch: Stretch(stretch[w.0 as usize]),
        worker: w,
    };
    open.join()
}

// Worker w's write of field f, where the two tables are lent apart.
pub fn enter_write(stretch: &[u32], writer: &mut [u32], w: Worker, f: Field)
    requires { (w.0 < 16) × (f.0 < 512) × (16 ≤ length stretch.now) × (512 ≤ length writer.old) × (get_or stretch.now w.0 0 < 268435456) }
    ensures { writer.new ≡ set writer.old f.0 (joined (get_or stretch.now w.0 0) w.0) }
{
    writer[f.0 as usize] = writer_word(stretch, w);
}

// Worker w's stretch closes, and its number rises: by 1 at a lock, by 2 at a flag.
pub fn close_stretch(stretch: &mut [u32], w: Worker, rise: u32)
    requires { (w.0 < 16) × (16 ≤ length stretch.old) × (get_or stretch.old w.0 0 < 268435456) × (rise ≤ 2) }
    ensures { stretch.new ≡ set stretch.old w.0 (get_or stretch.old w.0 0 + rise) }
{
    stretch[w.0 as usize] += rise;
}

// The first n words become v.
#[tactic(auto, unfolding(crate::specs::Lent::filled))]
pub fn fill(table: &mut [u32], n: usize, v: u32)
    requires { n ≤ length table.old }
    ensures { table.new ≡ filled n v table.old }
{
    table[..n].fill(v);
}
