// The tests of a section whose items are given by number: a file's, or those of rows that are to be written.
ghost use Rattle.std.specs.Prelude.{◌≡◌, ℕ, ◌+◌, ◌*◌, ◌<◌, ◌≤◌};
ghost use Rattle.recording.specs.Tests.{rising, events_tests, label_section, event_section};

use crate::Entry;
use crate::event::test_event;
use crate::refusal::{Reason, Refusal};
use events::Event;
use sorts::{Field, Worker};

// So many items, each given by its number.
pub trait Items<T> {
    ghost count: { Self → ℕ };

    ghost item: { Self → ℕ → T };

    fn item(&self, n: usize) -> T
        requires { n < count self.now }
        ensures { result ≡ item self.now n };
}

// A label is below the next, and so on for as many labels as follow; the first stands at this place.
fn rising<L: Items<u32>>(labels: &L, order: Reason, at: usize, follow: usize) -> Result<(), Refusal>
    requires { (follow < L.count labels.now) × (at + 2 * follow < 18446744073709551616) }
    ensures { result ≡ rising (L.item labels.now) order at 0 follow }
{
    let mut before = labels.item(0);
    // An item is asked for by its number, and the number makes its place.
    for n in 0..follow {
        let label = labels.item(n + 1);
        if label <= before {
            return Err(order.at(at + 2 * (n + 1)));
        }
        before = label;
    }
    Ok(())
}

// What a section of labels is tested by: how many there may be, and why a count or an order is refused.
#[derive(Clone, Copy)]
pub struct LabelRule {
    pub limit: u32,
    pub range: Reason,
    pub order: Reason,
}

impl LabelRule {
    pub const WORKERS: LabelRule = LabelRule {
        limit: Worker::LIMIT,
        range: Reason::WorkerCount,
        order: Reason::WorkerOrder,
    };

    pub const FIELDS: LabelRule = LabelRule {
        limit: Field::LIMIT,
        range: Reason::FieldCount,
        order: Reason::FieldOrder,
    };
}

// A section of so many labels, with its count at this place, where the file ends at size.
pub fn label_section<L: Items<u32>>(
    labels: &L,
    size: usize,
    at: usize,
    count: usize,
    rule: LabelRule,
) -> Result<(), Refusal>
    requires { (at + 2 ≤ size) × (at + 2 + 2 * count ≤ size → count ≤ L.count labels.now) }
    ensures { result ≡ label_section size at count (L.item labels.now) rule.limit rule.range rule.order }
{
    if count == 0 {
        return Err(rule.range.at(at));
    }
    if (rule.limit as usize) < count {
        return Err(rule.range.at(at));
    }
    if size - at - 2 < 2 * count {
        return Err(Reason::CutShort.at(size));
    }
    rising(labels, rule.order, at + 2, count - 1)
}

// So many events, to the first that is refused; the first stands at this place.
fn test_events<E: Items<Entry>>(
    entries: &E,
    at: usize,
    count: usize,
    workers: u32,
    fields: u32,
) -> Result<(), Refusal>
    requires { (count ≤ E.count entries.now) × (at + 4 * count < 18446744073709551616) }
    ensures { result ≡ events_tests workers fields (E.item entries.now) at 0 count }
{
    // By number, as above.
    for n in 0..count {
        if let Err(refusal) = test_event(entries.item(n), workers, fields) {
            return Err(refusal.reason.at(at + Entry::BYTES * n + refusal.place));
        }
    }
    Ok(())
}

// A section of so many events, with its count at this place, where the file ends at size.
pub fn event_section<E: Items<Entry>>(
    entries: &E,
    size: usize,
    at: usize,
    count: usize,
    workers: u32,
    fields: u32,
) -> Result<(), Refusal>
    requires { (at + 2 ≤ size) × (at + 2 + 4 * count ≤ size → count ≤ E.count entries.now) }
    ensures { result ≡ event_section size at workers fields count (E.item entries.now) }
{
    if (Event::LIMIT as usize) < count {
        return Err(Reason::EventCount.at(at));
    }
    if size - at - 2 < Entry::BYTES * count {
        return Err(Reason::CutShort.at(size));
    }
    test_events(entries, at + 2, count, workers, fields)
}
