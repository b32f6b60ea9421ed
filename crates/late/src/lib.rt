// The late finder: it counts the stretches that write a field, logs the version that a stretch has read, and looks at the log when a
// stretch closes.
#![tactic(auto)]

ghost use Rattle.std.specs.Prelude.{◌≡◌, cond, ◌+◌, ◌<◌, ◌≤◌, [], ◌∷◌, length, get_or};
ghost use Rattle.sorts.specs.Words.{joined};
ghost use Rattle.events.specs.Acts.{acts_of, reads, writes};
ghost use Rattle.events.specs.Words.{once};
ghost use Rattle.tables.specs.Answers.{found_of, verdict_of, said_by};
ghost use Rattle.tables.specs.Steps.{writer_by};
ghost use Rattle.late.specs.Steps.{late_meets, wrote_by, cleared, Sized, Room, Access, Crossing, Closed, Entered, Stepped};
ghost use Rattle.late.specs.Runs.{Shows, Meant, Ready, Ran};
ghost use Rattle.late.specs.Finds.{Finds};

use events::Deed;
use recording::Counts;
use recording::refusal::Reason;
use sorts::{Field, Version, Worker};
use stale::Logs;
use tables::{Answer, Sort, Verdict, clash};

// The tables lent to the finder, how many workers the recording has, and how many plain fields. Nothing of a flag is ever logged, so the
// walks are over the plain fields. `early` says why the methods that both finders have are not one.
#[derive(Drop)]
struct Tables<'a> {
    workers: u32,
    plain: u32,
    stretch: &'a mut [u32],
    writer: &'a mut [u32],
    version: &'a mut [u32],
    log: &'a mut [u32],
}

// The log word after a read at this version: it stays unless it is 0.
#[tactic(auto, unfolding(events::specs::Words::once))]
fn logged(log: u32, version: Version) -> u32
    requires { version.0 < 4294967295 }
    ensures { result ≡ once log (version.0 + 1) }
{
    if log == 0 { version.0 + 1 } else { log }
}

// The version word after a write at this version: a stretch that has written the field last counts once.
fn counted(version: Version, again: bool) -> u32
    requires { version.0 < 4294967295 }
    ensures { result ≡ cond again version.0 (version.0 + 1) }
{
    if again { version.0 } else { version.0 + 1 }
}

// Worker w's log words of the plain fields become 0.
#[tactic(auto, unfolding(crate::specs::Steps::cleared))]
fn clear_log(log: &mut [u32], plain: u32, w: Worker)
    requires { (w.0 < 16) × (plain ≤ 512) × (8192 ≤ length log.old) }
    ensures { log.new ≡ cleared log.old w.0 plain }
{
    // By their number: the words of a worker stand sixteen apart.
    for f in 0..plain {
        log[tables::place(w, Field(f))] = 0;
    }
}

impl Tables<'_> {
    // The words that tell of a stale read.
    fn logs(&self) -> Logs<'_>
        ensures { (result.writer.now ≡ self.now.writer.now) × (result.version.now ≡ self.now.version.now) × (result.log.now ≡ self.now.log.now) }
    {
        Logs {
            writer: self.writer,
            version: self.version,
            log: self.log,
        }
    }

    // The last writer of field f, if it is another worker than w and its stretch is open. This and the next hand their own tables on.
    fn other_writer(&self, w: Worker, f: Field) -> Option<Worker>
        requires { (f.0 < 512) × Sized self.now }
        ensures { found_of result ≡ writer_by self.now.workers self.now.stretch.now self.now.writer.now w.0 f.0 }
    {
        tables::other_writer(self.stretch, self.writer, self.workers, w, f)
    }

    // The writer word of worker w's open stretch.
    fn word_of(&self, w: Worker) -> u32
        requires { (w.0 < 16) × Sized self.now × (get_or self.now.stretch.now w.0 0 < 268435456) }
        ensures { result ≡ joined (get_or self.now.stretch.now w.0 0) w.0 }
    {
        tables::writer_word(self.stretch, w)
    }

    // Was worker w's open stretch the last writer of field f?
    #[tactic(auto, unfolding(crate::specs::Steps::wrote_by))]
    fn wrote_by(&self, w: Worker, f: Field) -> bool
        requires { Access w.0 f.0 self.now }
        ensures { result ≡ wrote_by self.now.stretch.now self.now.writer.now w.0 f.0 }
    {
        self.writer[f.0 as usize] == self.word_of(w)
    }

    // What event n meets, by what it does.
    #[tactic(auto, unfolding(events::specs::Verdicts::first_of))]
    fn look(&self, n: u32, d: Deed) -> Verdict
        requires { Room d self.now }
        ensures { verdict_of result ≡ late_meets self.now n (acts_of d) }
    {
        match d {
            Deed::Reads(w, f) => clash(n, Sort::ReadAfterWrite, w, self.other_writer(w, f), f),
            Deed::Writes(w, f) => clash(n, Sort::WriteAfterWrite, w, self.other_writer(w, f), f),
            Deed::Crosses(w) | Deed::Signals(w) => {
                stale::at_crossing(self.logs(), self.plain, w, n)
            }
        }
    }

    // Worker w's read of field f: a stretch does not log what it has written last itself.
    #[tactic(auto, unfolding(tables::specs::Steps::stretch_with, tables::specs::Steps::writer_with, crate::specs::Steps::version_with, crate::specs::Steps::log_with, crate::specs::Steps::log_read, tables::specs::Steps::stretch_after, tables::specs::Steps::writer_after, crate::specs::Steps::version_after, crate::specs::Steps::log_after))]
    fn enter_read(&mut self, w: Worker, f: Field)
        requires { Access w.0 f.0 self.old }
        ensures { Entered (reads w.0 f.0 ∷ []) self.old self.new }
    {
        if self.wrote_by(w, f) {
            return;
        }
        let j = tables::place(w, f);
        let seen = Version(self.version[f.0 as usize]);
        self.log[j] = logged(self.log[j], seen);
    }

    // Worker w's write of field f: the version goes by the writer word before the write.
    #[tactic(auto, unfolding(tables::specs::Steps::stretch_with, tables::specs::Steps::writer_with, crate::specs::Steps::version_with, crate::specs::Steps::log_with, tables::specs::Steps::stretch_after, tables::specs::Steps::writer_after, crate::specs::Steps::version_after, crate::specs::Steps::log_after))]
    fn enter_write(&mut self, w: Worker, f: Field)
        requires { Access w.0 f.0 self.old }
        ensures { Entered (writes w.0 f.0 ∷ []) self.old self.new }
    {
        let i = f.0 as usize;
        let again = self.wrote_by(w, f);
        self.version[i] = counted(Version(self.version[i]), again);
        // Both tables stand in one struct, so each is borrowed by itself.
        let stretch = &mut *self.stretch;
        let writer = &mut *self.writer;
        tables::enter_write(stretch, writer, w, f);
    }

    // Worker w's stretch closes: its number rises, and its log words become 0.
    fn close(&mut self, w: Worker, rise: u32)
        requires { Crossing w.0 self.old × (rise ≤ 2) }
        ensures { Closed w.0 rise self.old self.new }
    {
        tables::close_stretch(self.stretch, w, rise);
        clear_log(self.log, self.plain, w);
    }

    // What an event does that is not reported.
    #[tactic(auto, using(tables::proofs::Laws::stretch_flag, crate::proofs::Columns::cleared_twice), unfolding(tables::specs::Steps::stretch_with, tables::specs::Steps::writer_with, crate::specs::Steps::version_with, crate::specs::Steps::log_with, tables::specs::Steps::stretch_after, tables::specs::Steps::writer_after, crate::specs::Steps::version_after, crate::specs::Steps::log_after))]
    fn enter(&mut self, d: Deed)
        requires { Room d self.old }
        ensures { Entered (acts_of d) self.old self.new }
    {
        match d {
            Deed::Reads(w, f) => self.enter_read(w, f),
            Deed::Writes(w, f) => self.enter_write(w, f),
            Deed::Crosses(w) => self.close(w, 1),
            Deed::Signals(w) => self.close(w, 2),
        }
    }

    // Event n by the words alone: it is looked at, and entered if it is not reported.
    #[tactic(auto, unfolding(tables::specs::Steps::stretch_after, tables::specs::Steps::writer_after, crate::specs::Steps::version_after, crate::specs::Steps::log_after))]
    fn step(&mut self, n: u32, d: Deed) -> Verdict
        requires { Room d self.old }
        ensures { Stepped n (acts_of d) (verdict_of result) self.old self.new }
    {
        self.look(n, d)?;
        self.enter(d);
        Ok(())
    }

    // The events in their order, on tables that show that nothing has happened yet, and then the end. `early` says why each finder has this
    // loop for itself.
    fn run(&mut self, file: &[u8], counts: Counts) -> Verdict
        requires { Ready file.now counts self.old }
        ensures { Ran file.now (verdict_of result) self.old self.new }
    {
        let plain = self.plain;
        // By their number, since a report names it.
        for n in 0..counts.events {
            let e = recording::event_at(file, counts, n);
            self.step(n, events::deed_of(plain, e))?;
        }
        stale::at_end(self.logs(), counts.workers, plain, counts.events)
    }

    // The tables before event 0: every worker is in stretch 1, and nothing has happened.
    fn clear(&mut self)
        requires { (self.old.workers ≤ 16) × Sized self.old }
        ensures { Shows [] self.old self.new }
    {
        let workers = self.workers as usize;
        tables::fill(self.stretch, tables::WORKERS, 0);
        tables::fill(self.stretch, workers, 1);
        tables::fill(self.writer, tables::FIELDS, 0);
        tables::fill(self.version, tables::FIELDS, 0);
        tables::fill(self.log, tables::PAIRS, 0);
    }

    // The search over an accepted file, on any tables of full length.
    fn search(&mut self, file: &[u8], counts: Counts) -> Verdict
        requires { Meant file.now counts self.old × Sized self.old }
        ensures { Ran file.now (verdict_of result) self.old self.new }
    {
        self.clear();
        self.run(file, counts)
    }
}

// The answer to any file and any tables, lent one by one as a C program lends them. Test 11 comes first, then the file's own tests; nothing
// is written before all have passed.
pub fn find(
    file: &[u8],
    stretch: &mut [u32],
    writer: &mut [u32],
    version: &mut [u32],
    log: &mut [u32],
) -> Answer
    ensures { Finds file.now stretch.old writer.old version.old log.old (said_by result) stretch.new writer.new version.new log.new }
{
    if stretch.len() < tables::WORKERS
        || writer.len() < tables::FIELDS
        || version.len() < tables::FIELDS
        || log.len() < tables::PAIRS
    {
        return Err(Reason::ShortTable.at(0).into());
    }
    let counts = recording::check(file)?;
    let mut lent = Tables {
        workers: counts.workers,
        plain: flags::first_flag(file, counts.fields),
        stretch,
        writer,
        version,
        log,
    };
    tables::answer_to(lent.search(file, counts))
}
