// The bytes of a recording file, put into a lent buffer where there is room for them. All other bytes stay. Each function asks for room of its own
// size; a cursor over the buffer would ask for the same.
ghost use Rattle.std.specs.Prelude.{◌≡◌, ◌+◌, ◌*◌, ◌<◌, ◌≤◌, length};
ghost use Rattle.byte_rows.specs.Buffer.{put};
ghost use Rattle.writing.specs.Writing.{number_of, two_bytes, entry_bytes, items, labels_of, events_of};
ghost use Rattle.writing.specs.Parts.{label_bytes, event_bytes_of, count_of, event_in, LabelsFit, EntryFits, EventsFit};

use crate::Events;
use recording::Entry;
use recording::items::Items;

fn bytes(buffer: &mut [u8], at: usize, bytes: &[u8])
    requires { at + length bytes.now ≤ length buffer.old }
    ensures { buffer.new ≡ put buffer.old at bytes.now }
{
    buffer[at..at + bytes.len()].copy_from_slice(bytes);
}

// The low byte comes first. The numbers here fit, so `as` drops nothing; `TryFrom` would have an error that cannot occur.
fn two_bytes(x: u32) -> [u8; 2]
    requires { x < 65536 }
    ensures { result ≡ two_bytes x }
{
    (x as u16).to_le_bytes()
}

fn number(buffer: &mut [u8], at: usize, x: u32)
    requires { (at + 2 ≤ length buffer.old) × (x < 65536) }
    ensures { buffer.new ≡ put buffer.old at (two_bytes x) }
{
    bytes(buffer, at, &two_bytes(x));
}

// The labels of a row, one after another.
fn label_items(buffer: &mut [u8], at: usize, row: &[u32])
    requires { (at + 2 * length row.now ≤ length buffer.old) × LabelsFit row.now }
    ensures { buffer.new ≡ put buffer.old at (items (label_bytes row.now) 0 (length row.now)) }
{
    for (n, label) in row.iter().enumerate() {
        number(buffer, at + 2 * n, *label);
    }
}

// A section of labels, with its count at this place.
pub fn labels(buffer: &mut [u8], at: usize, row: &[u32])
    requires { (at + 2 + 2 * length row.now ≤ length buffer.old) × (length row.now ≤ 512) × LabelsFit row.now }
    ensures { buffer.new ≡ put buffer.old at (labels_of (length row.now) (number_of row.now)) }
{
    number(buffer, at, row.len() as u32);
    label_items(buffer, at + 2, row);
}

// Kind, worker and field.
fn event(buffer: &mut [u8], at: usize, e: Entry)
    requires { (at + 4 ≤ length buffer.old) × EntryFits e }
    ensures { buffer.new ≡ put buffer.old at (entry_bytes e) }
{
    let [low, high] = two_bytes(e.field);
    bytes(buffer, at, &[e.kind as u8, e.worker as u8, low, high]);
}

// The events, one after another.
fn event_items(buffer: &mut [u8], at: usize, events: Events)
    requires { (at + 4 * count_of events ≤ length buffer.old) × EventsFit events }
    ensures { buffer.new ≡ put buffer.old at (items (event_bytes_of events.entry) 0 (count_of events.entry)) }
{
    // One number reads all three rows; zipped, they would come as nested pairs.
    for n in 0..events.count() {
        event(buffer, at + Entry::BYTES * n, events.item(n));
    }
}

// The section of events, with its count at this place: as above, of items of another type.
pub fn events(buffer: &mut [u8], at: usize, events: Events)
    requires { (at + 2 + 4 * count_of events ≤ length buffer.old) × (count_of events ≤ 16000) × EventsFit events }
    ensures { buffer.new ≡ put buffer.old at (events_of (count_of events.entry) (event_in events.entry)) }
{
    number(buffer, at, events.count() as u32);
    event_items(buffer, at + 2, events);
}
