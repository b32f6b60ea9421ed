// The early finder (FastRCD): at each access it looks whether another worker's open stretch has touched the field.
#![tactic(auto)]

ghost use Rattle.std.specs.Prelude.{◌≡◌, ◌+◌, ◌*◌, ◌<◌, ◌≤◌, min, [], length};
ghost use Rattle.events.specs.Acts.{DeedWithin};
ghost use Rattle.recording.specs.File.{Accepted};
ghost use Rattle.tables.specs.Answers.{found_of, verdict_of, said_by};
ghost use Rattle.tables.specs.Steps.{writer_by};
ghost use Rattle.early.specs.Steps.{reader_open, reader_by, meets, Sized, Room, Entered, Stepped};
ghost use Rattle.early.specs.Runs.{Shows, Ready, Ran};
ghost use Rattle.early.specs.Finds.{Finds};

use events::Deed;
use recording::Counts;
use recording::refusal::Reason;
use sorts::{Field, Stretch, Worker};
use tables::{Answer, Sort, Verdict, clash};

// The tables lent to the finder, and how many workers the recording has. The late finder has methods of the same names over its own tables:
// one trait for both would be longer than what it saves (`run`, below).
#[derive(Drop)]
pub struct Tables<'a> {
    pub workers: u32,
    pub stretch: &'a mut [u32],
    pub writer: &'a mut [u32],
    pub readers: &'a mut [u32],
}

impl Tables<'_> {
    // Is u another worker than w with an open stretch that has read field f?
    #[tactic(auto, unfolding(crate::specs::Steps::reader_open))]
    fn reader_open(&self, w: Worker, f: Field, u: Worker) -> bool
        requires { (u.0 < 16) × (f.0 < 512) × Sized self.now }
        ensures { result ≡ reader_open self.now.workers self.now.stretch.now self.now.readers.now w.0 (16 * f.0) u.0 }
    {
        let read = Stretch(self.readers[tables::place(u, f)]);
        u != w && tables::is_open(self.stretch, self.workers, u, read)
    }

    // The lowest other worker whose open stretch has read field f. Those that exist are visited: a worker past the count has none,
    // whatever its words, and the tables have words for sixteen.
    fn other_reader(&self, w: Worker, f: Field) -> Option<Worker>
        requires { (f.0 < 512) × Sized self.now }
        ensures { found_of result ≡ reader_by self.now.workers self.now.stretch.now self.now.readers.now w.0 f.0 }
    {
        (0..self.workers.min(Worker::LIMIT))
            .find(|u| self.reader_open(w, f, Worker(*u)))
            .map(Worker)
    }

    // The last writer of field f, if it is another worker than w and its stretch is open. It hands its own tables on.
    fn other_writer(&self, w: Worker, f: Field) -> Option<Worker>
        requires { (f.0 < 512) × Sized self.now }
        ensures { found_of result ≡ writer_by self.now.workers self.now.stretch.now self.now.writer.now w.0 f.0 }
    {
        tables::other_writer(self.stretch, self.writer, self.workers, w, f)
    }

    // What event n meets, by what it does. Sort 1 is tested before sort 2.
    #[tactic(auto, unfolding(events::specs::Verdicts::first_of))]
    fn look(&self, n: u32, d: Deed) -> Verdict
        requires { DeedWithin 16 512 d × Sized self.now }
        ensures { verdict_of result ≡ meets self.now n d }
    {
        match d {
            Deed::Reads(w, f) => clash(n, Sort::ReadAfterWrite, w, self.other_writer(w, f), f),
            Deed::Writes(w, f) => {
                clash(n, Sort::WriteAfterWrite, w, self.other_writer(w, f), f)?;
                clash(n, Sort::WriteAfterRead, w, self.other_reader(w, f), f)
            }
            Deed::Crosses(_) | Deed::Signals(_) => Ok(()),
        }
    }

    // What an event does that clashes with nothing.
    #[tactic(auto, unfolding(tables::specs::Steps::stretch_with, tables::specs::Steps::writer_with, crate::specs::Steps::readers_with, tables::specs::Steps::stretch_after, tables::specs::Steps::writer_after, crate::specs::Steps::readers_after))]
    fn enter(&mut self, d: Deed)
        requires { Room d self.old }
        ensures { Entered d self.old self.new }
    {
        match d {
            Deed::Reads(w, f) => self.readers[tables::place(w, f)] = self.stretch[w.0 as usize],
            Deed::Writes(w, f) => {
                // Both tables stand in one struct, so each is borrowed by itself.
                let stretch = &mut *self.stretch;
                let writer = &mut *self.writer;
                tables::enter_write(stretch, writer, w, f);
            }
            Deed::Crosses(w) => tables::close_stretch(self.stretch, w, 1),
            Deed::Signals(w) => tables::close_stretch(self.stretch, w, 2),
        }
    }

    // Event n by the words alone: it is looked at, and entered if it clashes with nothing.
    pub fn step(&mut self, n: u32, d: Deed) -> Verdict
        requires { Room d self.old }
        ensures { Stepped n d (verdict_of result) self.old self.new }
    {
        self.look(n, d)?;
        self.enter(d);
        Ok(())
    }

    // The events in their order, on tables that show that nothing has happened yet. Each finder has this loop for itself: one for both
    // would be longer, a trait with ghost members for all that the tables show and a law for each step. Its proof is shared (`Course`).
    fn run(&mut self, file: &[u8], counts: Counts) -> Verdict
        requires { Ready file.now counts self.old }
        ensures { Ran file.now counts (verdict_of result) self.old self.new }
    {
        let plain = flags::first_flag(file, counts.fields);
        // By their number, since a report names it.
        for n in 0..counts.events {
            let e = recording::event_at(file, counts, n);
            self.step(n, events::deed_of(plain, e))?;
        }
        Ok(())
    }

    // The tables before event 0: every worker is in stretch 1, and nothing has happened.
    fn clear(&mut self)
        requires { (self.old.workers ≤ 16) × Sized self.old }
        ensures { Shows [] self.old self.new }
    {
        let workers = self.workers as usize;
        tables::fill(self.stretch, tables::WORKERS, 0);
        tables::fill(self.stretch, workers, 1);
        tables::fill(self.writer, tables::FIELDS, 0);
        tables::fill(self.readers, tables::PAIRS, 0);
    }

    // The search over an accepted file, on any tables of full length.
    fn search(&mut self, file: &[u8], counts: Counts) -> Verdict
        requires { Accepted file.now counts × (self.old.workers ≡ counts.workers) × Sized self.old }
        ensures { Ran file.now counts (verdict_of result) self.old self.new }
    {
        self.clear();
        self.run(file, counts)
    }
}

// The answer to any file and any tables. Test 11 comes first, then the file's own tests; nothing is written before all have passed. The
// tables come one by one, as C lends them.
pub fn find(file: &[u8], stretch: &mut [u32], writer: &mut [u32], readers: &mut [u32]) -> Answer
    ensures { Finds file.now stretch.old writer.old readers.old (said_by result) stretch.new writer.new readers.new }
{
    if stretch.len() < tables::WORKERS
        || writer.len() < tables::FIELDS
        || readers.len() < tables::PAIRS
    {
        return Err(Reason::ShortTable.at(0).into());
    }
    let counts = recording::check(file)?;
    let mut lent = Tables {
        workers: counts.workers,
        stretch,
        writer,
        readers,
    };
    tables::answer_to(lent.search(file, counts))
}
