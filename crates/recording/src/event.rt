// The tests within an event, read or to be written.
ghost use Rattle.std.specs.Prelude.{◌≡◌};
ghost use Rattle.recording.specs.Tests.{Decodes, kind_number, field_allowed, event_tests};

use crate::Entry;
use crate::refusal::{Reason, Refusal};

// What a worker can do.
#[derive(Clone, Copy, Debug, PartialEq, Eq)]
pub enum Kind {
    Read,
    Write,
    Crossing,
}

impl Kind {
    // The number by which a file names it; it has a name, for `u32::from` would not say which number that is.
    pub fn number(self) -> u32
        ensures { result ≡ kind_number self }
    {
        match self {
            Kind::Read => 1,
            Kind::Write => 2,
            Kind::Crossing => 3,
        }
    }
}

// A number that stands for no kind.
#[derive(Clone, Copy, Debug, PartialEq, Eq)]
pub struct UnknownKind(pub u32);

impl TryFrom<u32> for Kind {
    type Error = UnknownKind;

    ghost try_from_gives = { Decodes };

    // 1 is a read, 2 a write, 3 a crossing.
    fn try_from(number: u32) -> Result<Self, UnknownKind> {
        match number {
            1 => Ok(Kind::Read),
            2 => Ok(Kind::Write),
            3 => Ok(Kind::Crossing),
            _ => Err(UnknownKind(number)),
        }
    }
}

// A crossing has field number 0.
fn field_allowed(fields: u32, kind: Kind, field: u32) -> bool
    ensures { result ≡ field_allowed fields (kind_number kind) field }
{
    match kind {
        Kind::Crossing => field == 0,
        _ => field < fields,
    }
}

// The tests within an event; the place is counted from the event's first byte.
pub fn test_event(e: Entry, workers: u32, fields: u32) -> Result<(), Refusal>
    ensures { result ≡ event_tests workers fields e 0 }
{
    let Ok(kind) = Kind::try_from(e.kind) else {
        return Err(Reason::Kind.at(0));
    };
    if workers <= e.worker {
        return Err(Reason::Worker.at(1));
    }
    if !field_allowed(fields, kind, e.field) {
        return Err(Reason::Field.at(2));
    }
    Ok(())
}
