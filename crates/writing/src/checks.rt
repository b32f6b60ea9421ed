// The tests of a recording to be written: those of the file that the rows would make.
ghost use Rattle.std.specs.Prelude.{◌≡◌, ◌≤◌, length, position, nat_lt};
ghost use Rattle.writing.specs.Writing.{number_of, fitting_in, rows_lent, rows_tests};
ghost use Rattle.writing.specs.Parts.{row_answer, events_answer};

use crate::{Events, Rows};
use recording::Entry;
use recording::items::{self, Items, LabelRule};
use recording::refusal::Refusal;

// The labels of a row.
#[derive(Clone, Copy)]
struct Labels<'a> {
    row: &'a [u32],
}

impl Items<u32> for Labels<'_> {
    ghost count = { λ l. length l.row.now };

    ghost item = { λ l. number_of l.row.now };

    fn item(&self, n: usize) -> u32 {
        self.row[n]
    }
}

// The first label of a row that is no two-byte value.
fn first_unfit(row: &[u32]) -> Option<usize>
    ensures { result ≡ position (λ x. nat_lt 65535 x) row.now }
{
    row.iter().position(|label| 65535 < *label)
}

// How many labels come before it: all of them, if there is none.
fn fitting_labels(row: &[u32]) -> usize
    ensures { (result ≡ fitting_in row.now) × (result ≤ length row.now) }
{
    first_unfit(row).unwrap_or(row.len())
}

// A section of labels, with its count at this place of the file, which goes as far as its labels fit.
fn label_section(row: &[u32], at: usize, rule: LabelRule) -> Result<(), Refusal>
    requires { at ≤ 1000 }
    ensures { result ≡ row_answer row.now at rule.limit rule.range rule.order }
{
    // A row with more labels is refused for that, and not read through first.
    if (rule.limit as usize) < row.len() {
        return Err(rule.range.at(at));
    }
    let end = at + 2 + 2 * fitting_labels(row);
    items::label_section(&Labels { row }, end, at, row.len(), rule)
}

// The section of events, after so many workers and fields, in a file that goes as far as its events are whole.
fn event_section(events: Events, workers: usize, fields: usize) -> Result<(), Refusal>
    requires { (workers ≤ 16) × (fields ≤ 512) }
    ensures { result ≡ events_answer events.entry workers fields }
{
    let count = events.count();
    let at = 4 + 2 * workers + 2 * fields;
    let end = at + 2 + Entry::BYTES * events.whole();
    // They are at most 16 and 512, so `as` drops nothing.
    items::event_section(&events, end, at, count, workers as u32, fields as u32)
}

// All of them, front to back.
pub fn check(rows: Rows) -> Result<(), Refusal>
    ensures { result ≡ rows_tests (rows_lent rows.entry) }
{
    label_section(rows.worker_labels, 0, LabelRule::WORKERS)?;
    let at = 2 + 2 * rows.worker_labels.len();
    label_section(rows.field_labels, at, LabelRule::FIELDS)?;
    event_section(
        rows.events,
        rows.worker_labels.len(),
        rows.field_labels.len(),
    )
}
