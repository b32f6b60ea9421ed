// Why a file, a lent table or a lent buffer is refused, and where.
ghost use Rattle.std.specs.Prelude.{◌≡◌};
ghost use Rattle.recording.specs.Refusals.{number_of};

// The tests that a recording passes, each by what fails it.
#[derive(Clone, Copy, Debug, PartialEq, Eq)]
pub enum Reason {
    // The file ends before a count or a section's items do.
    CutShort,
    WorkerCount,
    // A worker label is not above the one before.
    WorkerOrder,
    FieldCount,
    // A field label is not above the one before.
    FieldOrder,
    EventCount,
    // Within an event.
    Kind,
    Worker,
    Field,
    // The file goes on after the last event.
    ExtraBytes,
    // What the caller lends is too short.
    ShortTable,
    ShortBuffer,
}

impl Reason {
    // The number that the papers give it; it has a name, as that of a kind.
    pub fn number(self) -> u32
        ensures { result ≡ number_of self }
    {
        match self {
            Reason::CutShort => 1,
            Reason::WorkerCount => 2,
            Reason::WorkerOrder => 3,
            Reason::FieldCount => 4,
            Reason::FieldOrder => 5,
            Reason::EventCount => 6,
            Reason::Kind => 7,
            Reason::Worker => 8,
            Reason::Field => 9,
            Reason::ExtraBytes => 10,
            Reason::ShortTable => 11,
            Reason::ShortBuffer => 12,
        }
    }

    // Refused for this reason, at this place.
    pub fn at(self, place: usize) -> Refusal
        ensures { result ≡ record { reason = self; place = place } }
    {
        Refusal {
            reason: self,
            place,
        }
    }
}

// What is refused gets a reason and a place.
#[derive(Clone, Copy, Debug, PartialEq, Eq)]
pub struct Refusal {
    pub reason: Reason,
    pub place: usize,
}
