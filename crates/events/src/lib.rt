// The events of a recording, and what each does. What the papers say of them is in specs/, what follows from that in proofs/.
#![tactic(auto)]

ghost use Rattle.std.specs.Prelude.{◌≡◌};
ghost use Rattle.events.specs.Acts.{access_does, deed_of};

use sorts::{Field, Worker};

// What one worker did, in the one order of the recording.
#[derive(Clone, Copy)]
pub enum Event {
    // The worker reads the field.
    Read(Worker, Field),
    // The worker writes the field.
    Write(Worker, Field),
    // The worker crosses a lock: its stretch closes and its next one opens.
    Crossing(Worker),
}

impl Event {
    // A recording has at most so many events.
    pub const LIMIT: u32 = 16_000;
}

// What an event does, once flags are told from plain fields.
#[derive(Clone, Copy)]
pub enum Deed {
    Reads(Worker, Field),
    Writes(Worker, Field),
    // The worker's stretch closes and its next one opens.
    Crosses(Worker),
    // The worker accesses a flag: its stretch closes, the access is a stretch by itself, and the next one opens.
    Signals(Worker),
}

// What worker w's access of field f does, where it does d if the field is plain. Of a flag, a read does what a write does.
fn access(plain: u32, w: Worker, f: Field, d: Deed) -> Deed
    ensures { result ≡ access_does plain w f d }
{
    if plain <= f.0 {
        return Deed::Signals(w);
    }
    d
}

// What an event does where so many fields are plain, and the fields from that number on are flags.
pub fn deed_of(plain: u32, e: Event) -> Deed
    ensures { result ≡ deed_of plain e }
{
    match e {
        Event::Read(w, f) => access(plain, w, f, Deed::Reads(w, f)),
        Event::Write(w, f) => access(plain, w, f, Deed::Writes(w, f)),
        Event::Crossing(w) => Deed::Crosses(w),
    }
}
