// Which fields of a recording are flags: those from one number on. Whoever asks for that number needs nothing else of labels.
#![tactic(auto)]

ghost use Rattle.std.specs.Prelude.{◌≡◌};
ghost use Rattle.recording.specs.File.{field_label};
ghost use Rattle.flags.specs.Flags.{flags_from};

use sorts::Field;

// A field with this label or a higher one is a flag.
const LOWEST_LABEL: u32 = 32_768;

// The number of the first flag of a file with so many fields; that many if there is none. It is a number and no Option: so many fields are plain.
pub fn first_flag(file: &[u8], fields: u32) -> u32
    ensures { result ≡ flags_from (field_label file.now) fields }
{
    (0..fields)
        .find(|f| LOWEST_LABEL <= recording::field_label(file, Field(*f)))
        .unwrap_or(fields)
}
