// Reading into a lent buffer, to the input's end or the buffer's.
#![tactic(auto)]

ghost use Rattle.input.specs.Reading.{ReadInto, Brings};

use std::io;
use std::io::Read;

// How many bytes stand at the start of the buffer now, which stops at its end and at the input's.
pub fn read<R: Read>(reader: &mut R, buffer: &mut [u8]) -> io::Result<usize>
    ensures within { ReadInto buffer.new result }
    ensures bytes { Brings (R.remaining reader.old) (R.remaining reader.new) buffer.new result }
{
    let mut at = 0;
    // No range goes over `at`: it moves on by what a read brings, which may be only some of what is there, and is nothing at the end.
    while at < buffer.len() {
        let more = reader.read(&mut buffer[at..])?;
        if more == 0 {
            return Ok(at);
        }
        at += more;
    }
    Ok(at)
}
