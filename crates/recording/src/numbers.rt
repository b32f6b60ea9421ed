// Numbers from a file's bytes.
ghost use Rattle.std.specs.Prelude.{◌≡◌, ◌+◌, ◌<◌, ◌≤◌, length, get_or};
ghost use Rattle.recording.specs.File.{two_byte, number_at, entry_at};

use crate::Entry;

// The low byte comes first.
fn two_byte(low: u8, high: u8) -> u32
    ensures { (result ≡ two_byte low high) × (result < 65536) }
{
    u32::from(u16::from_le_bytes([low, high]))
}

// The two-byte number at a place of the file.
pub fn number_at(file: &[u8], i: usize) -> u32
    requires { i + 2 ≤ length file.now }
    ensures { (result ≡ number_at file.now i) × (result < 65536) }
{
    two_byte(file[i], file[i + 1])
}

// The numbers of the event at a place of the file.
pub fn entry_at(file: &[u8], i: usize) -> Entry
    requires { i + 4 ≤ length file.now }
    ensures { result ≡ entry_at file.now i }
{
    Entry {
        kind: u32::from(file[i]),
        worker: u32::from(file[i + 1]),
        field: number_at(file, i + 2),
    }
}

// Past the end stands 0.
fn byte_at(file: &[u8], i: usize) -> u8
    ensures { result ≡ get_or file.now i 0 }
{
    file.get(i).copied().unwrap_or(0)
}

// The two-byte number at any place, the end or past it too.
pub fn any_number_at(file: &[u8], i: usize) -> u32
    requires { i < 1099511627776 }
    ensures { (result ≡ number_at file.now i) × (result < 65536) }
{
    two_byte(byte_at(file, i), byte_at(file, i + 1))
}
