// The tests of a file that is read, section by section.
ghost use Rattle.std.specs.Prelude.{◌≡◌, ◌-◌, ◌/◌, ◌≤◌, length};
ghost use Rattle.recording.specs.Tests.{events_at};
ghost use Rattle.recording.specs.File.{label_at, entries_at};
ghost use Rattle.recording.specs.Parts.{labels_answer, events_answer, to_end_answer};

use crate::items::{self, Items, LabelRule};
use crate::numbers::{entry_at, number_at};
use crate::refusal::{Reason, Refusal};
use crate::{Counts, Entry};

// The items of a section, the first of them at this place of the file.
#[derive(Clone, Copy)]
struct Section<'a> {
    file: &'a [u8],
    at: usize,
}

impl Items<u32> for Section<'_> {
    ghost count = { λ s. (length s.file.now - s.at) / 2 };

    ghost item = { λ s. label_at s.file.now s.at };

    fn item(&self, n: usize) -> u32 {
        number_at(self.file, self.at + 2 * n)
    }
}

impl Items<Entry> for Section<'_> {
    ghost count = { λ s. (length s.file.now - s.at) / 4 };

    ghost item = { λ s. entries_at s.file.now s.at };

    fn item(&self, n: usize) -> Entry {
        entry_at(self.file, self.at + Entry::BYTES * n)
    }
}

// A section of labels, with its count at this place.
pub fn label_section(file: &[u8], at: usize, rule: LabelRule) -> Result<u32, Refusal>
    requires { at ≤ length file.now }
    ensures { result ≡ labels_answer file.now at rule.limit rule.range rule.order }
{
    let end = file.len();
    if end - at < 2 {
        return Err(Reason::CutShort.at(end));
    }
    let count = number_at(file, at);
    let labels = Section { file, at: at + 2 };
    items::label_section(&labels, end, at, count as usize, rule)?;
    Ok(count)
}

// The section of events, with its count at this place: as above, of items and tests of another type.
fn event_section(file: &[u8], at: usize, workers: u32, fields: u32) -> Result<u32, Refusal>
    requires { at ≤ length file.now }
    ensures { result ≡ events_answer file.now at workers fields }
{
    let end = file.len();
    if end - at < 2 {
        return Err(Reason::CutShort.at(end));
    }
    let count = number_at(file, at);
    let entries = Section { file, at: at + 2 };
    items::event_section(&entries, end, at, count as usize, workers, fields)?;
    Ok(count)
}

// The events, and nothing after them.
pub fn check_events(file: &[u8], workers: u32, fields: u32) -> Result<Counts, Refusal>
    requires { (workers ≤ 16) × (fields ≤ 512) × (events_at workers fields ≤ length file.now) }
    ensures { result ≡ to_end_answer file.now workers fields }
{
    let at = 4 + 2 * (workers as usize) + 2 * (fields as usize);
    let events = event_section(file, at, workers, fields)?;
    let last = at + 2 + Entry::BYTES * (events as usize);
    if last < file.len() {
        return Err(Reason::ExtraBytes.at(last));
    }
    Ok(Counts {
        workers,
        fields,
        events,
    })
}
