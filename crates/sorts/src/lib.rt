// The four sorts of number of the papers, each with its limit, and a writer word joined and parted.
// They are four types, so that no operation takes one for another.
#![tactic(auto)]

ghost use Rattle.std.specs.Prelude.{◌≡◌, ◌<◌};
ghost use Rattle.sorts.specs.Words.{joined, stretch_in, worker_in};

// A worker's number, counted from 0: the papers' thread.
#[derive(Clone, Copy, Debug, PartialEq, Eq)]
pub struct Worker(pub u32);

// A field's number, counted from 0: the papers' variable.
#[derive(Clone, Copy, Debug, PartialEq, Eq)]
pub struct Field(pub u32);

// A stretch's number within its worker, counted from 1: the papers' clock.
#[derive(Clone, Copy, Debug, PartialEq, Eq)]
pub struct Stretch(pub u32);

// How many stretches have written a field.
#[derive(Clone, Copy, Debug, PartialEq, Eq)]
pub struct Version(pub u32);

impl Worker {
    // A recording has at most so many workers.
    pub const LIMIT: u32 = 16;

    // Stands in a report for a worker that is not recorded: no worker's number reaches the limit. With an Option two reports would have the same
    // numbers, and then these would not tell answers apart.
    pub const NOT_RECORDED: Worker = Worker(Worker::LIMIT);
}

impl Field {
    // A recording has at most so many fields.
    pub const LIMIT: u32 = 512;
}

// A stretch and the worker whose stretch it is: the papers' epoch.
#[derive(Clone, Copy, Debug, PartialEq, Eq)]
pub struct Epoch {
    pub stretch: Stretch,
    pub worker: Worker,
}

// Functions with names, as the scope of work asks, and no `From` either way: not every epoch fits a word, and joining and parting belong
// together.
impl Epoch {
    // The writer word: it holds every stretch number below 2^28.
    pub fn join(self) -> u32
        requires { (self.stretch.0 < 268435456) × (self.worker.0 < 16) }
        ensures { result ≡ joined self.stretch.0 self.worker.0 }
    {
        let s = self.stretch;
        let w = self.worker;
        Worker::LIMIT * s.0 + w.0
    }

    // The epoch that a writer word holds.
    pub fn part(word: u32) -> Epoch
        ensures { (result.stretch.0 ≡ stretch_in word) × (result.worker.0 ≡ worker_in word) }
    {
        Epoch {
            stretch: Stretch(word / Worker::LIMIT),
            worker: Worker(word % Worker::LIMIT),
        }
    }
}
