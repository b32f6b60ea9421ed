// The stale reads that the late finder looks for: a read of a worker's open stretch, where another worker has written the field since.
// They are told by the version, log and writer words alone, whatever these are.
#![tactic(auto)]

ghost use Rattle.std.specs.Prelude.{◌≡◌, ◌<◌, ◌≤◌};
ghost use Rattle.events.specs.Words.{stale_by_words};
ghost use Rattle.events.specs.Verdicts.{stale_by, end_by};
ghost use Rattle.tables.specs.Answers.{verdict_of};
ghost use Rattle.stale.specs.Stale.{Sized, field_of, stale_words, stale_field_by, first_stale, said_of};

use sorts::{Epoch, Field, Version, Worker};
use std::cmp::Ordering;
use tables::{Report, Sort, Verdict};

// The words that tell, as the late finder keeps them: who wrote each field last, how many stretches have written it, and which version
// of it each worker's open stretch has read.
#[derive(Clone, Copy)]
pub struct Logs<'a> {
    pub writer: &'a [u32],
    pub version: &'a [u32],
    pub log: &'a [u32],
}

// Has another worker written since w's open stretch logged the version?
#[tactic(auto, unfolding(events::specs::Words::stale_by_words))]
fn stale_by_words(log: u32, version: Version, last: Worker, w: Worker) -> bool
    ensures { result ≡ stale_by_words log version.0 last.0 w.0 }
{
    if log == 0 {
        return false;
    }
    match log.cmp(&version.0) {
        Ordering::Less => true,
        Ordering::Equal => last != w,
        Ordering::Greater => false,
    }
}

impl Logs<'_> {
    // Has w's open stretch a stale read of f?
    #[tactic(auto, unfolding(crate::specs::Stale::stale_words))]
    fn stale_at(self, w: Worker, f: Field) -> bool
        requires { (w.0 < 16) × (f.0 < 512) × Sized self }
        ensures { result ≡ stale_words self.entry.log.now self.entry.version.now self.entry.writer.now w.0 f.0 }
    {
        let i = f.0 as usize;
        let log = self.log[tables::place(w, f)];
        let last = Epoch::part(self.writer[i]);
        stale_by_words(log, Version(self.version[i]), last.worker, w)
    }

    // The lowest field of which w's open stretch has a stale read.
    fn stale_field(self, fields: u32, w: Worker) -> Option<Field>
        requires { (w.0 < 16) × (fields ≤ 512) × Sized self }
        ensures { field_of result ≡ stale_field_by fields self.entry.log.now self.entry.version.now self.entry.writer.now w.0 }
    {
        (0..fields).find(|f| self.stale_at(w, Field(*f))).map(Field)
    }

    // The first worker and field with a stale read, lowest worker first and then lowest field. Document 01 asks by name for nested loops
    // left by a labelled break.
    #[tactic(auto, using(sorts::proofs::Counting::one_left), unfolding(crate::specs::Stale::first_stale, events::specs::Search::lowest, crate::proofs::Laws::stale_from))]
    fn first_stale(self, workers: u32, fields: u32) -> Option<(Worker, Field)>
        requires { (workers ≤ 16) × (fields ≤ 512) × Sized self }
        ensures { result ≡ first_stale fields self.entry.log.now self.entry.version.now self.entry.writer.now 0 workers }
    {
        let mut found = None;
        'search: for w in 0..workers {
            for f in 0..fields {
                if self.stale_at(Worker(w), Field(f)) {
                    found = Some((Worker(w), Field(f)));
                    break 'search;
                }
            }
        }
        found
    }
}

// A stale read is reported at event n, and the worker that wrote is not recorded.
fn said_of(n: u32, stale: Option<(Worker, Field)>) -> Verdict
    ensures { verdict_of result ≡ said_of n stale }
{
    match stale {
        None => Ok(()),
        Some((worker, field)) => Err(Report {
            event: n,
            sort: Sort::WriteAfterRead.number(),
            worker,
            other: Worker::NOT_RECORDED,
            field,
        }),
    }
}

// Event n closes worker w's stretch: its lowest stale read is reported.
pub fn at_crossing(logs: Logs, fields: u32, w: Worker, n: u32) -> Verdict
    requires { (w.0 < 16) × (fields ≤ 512) × Sized logs }
    ensures { verdict_of result ≡ stale_by (stale_field_by fields logs.entry.log.now logs.entry.version.now logs.entry.writer.now) n w.0 }
{
    said_of(n, logs.stale_field(fields, w).map(|f| (w, f)))
}

// After the last of n events: every worker is looked at as at a crossing.
#[tactic(auto, using(crate::proofs::Laws::said_first))]
pub fn at_end(logs: Logs, workers: u32, fields: u32, n: u32) -> Verdict
    requires { (workers ≤ 16) × (fields ≤ 512) × Sized logs }
    ensures { verdict_of result ≡ end_by (stale_field_by fields logs.entry.log.now logs.entry.version.now logs.entry.writer.now) n 0 workers }
{
    said_of(n, logs.first_stale(workers, fields))
}
