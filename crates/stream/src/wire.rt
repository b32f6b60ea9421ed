// The two ends of the stream, by which both sorts of request are read and answered: numbers of 32 bits, the low byte first, and bytes.
// There is no heap, so each end has an array that holds the longest of what goes by way of it.
ghost use Rattle.std.specs.Prelude.{◌≤◌, ◌≡◌, length, IfOk};

use std::io;
use std::io::{ErrorKind, Read};

// What comes in, by way of a space that holds the longest request after its head: 66,000 numbers.
#[derive(Drop)]
pub struct Input<R> {
    reader: R,
    space: [u8; 264_000],
}

impl<R: Read> Input<R> {
    pub fn new(reader: R) -> Input<R> {
        Input {
            reader,
            space: [0; 264_000],
        }
    }

    // The next n bytes; an error where there is no room for them.
    pub fn bytes(&mut self, n: usize) -> io::Result<&[u8]> {
        let Input { reader, space } = self;
        let bytes = space.get_mut(..n).ok_or(ErrorKind::InvalidInput)?;
        reader.read_exact(bytes)?;
        Ok(bytes)
    }

    // The next numbers, one for each word of the row.
    pub fn numbers(&mut self, row: &mut [u32]) -> io::Result<()> {
        let bytes = self.bytes(row.len().saturating_mul(4))?;
        let (numbers, _) = bytes.as_chunks();
        for (word, number) in row.iter_mut().zip(numbers) {
            *word = u32::from_le_bytes(*number);
        }
        Ok(())
    }
}

// What goes out, a piece at a time. There is room for the longest piece of a response: the rows read back, and four numbers.
#[derive(Drop)]
pub struct Output<'a, P> {
    rt: &'a P,
    piece: [u8; 194_128],
    len: usize,
    ghost in_range: { len ≤ 194128 },
}

impl<'a, P: Print> Output<'a, P> {
    pub fn new(rt: &'a P) -> Output<'a, P> {
        Output {
            rt,
            piece: [0; 194_128],
            len: 0,
        }
    }

    // The next n bytes of the piece; an error where there is no room for them.
    fn room(&mut self, n: usize) -> io::Result<&mut [u8]>
        ensures { IfOk result (λ s. length s.now ≡ n) }
    {
        let start = self.len;
        if self.piece.len() - start < n {
            return Err(ErrorKind::WriteZero.into());
        }
        self.len += n;
        let piece = &mut self.piece;
        Ok(&mut piece[start..start + n])
    }

    // Puts every number of the row into the piece.
    pub fn numbers(&mut self, row: &[u32]) -> io::Result<()> {
        let (words, _) = self.room(row.len().saturating_mul(4))?.as_chunks_mut();
        for (word, number) in words.iter_mut().zip(row) {
            *word = number.to_le_bytes();
        }
        Ok(())
    }

    // Puts every byte of the row into the piece.
    pub fn bytes(&mut self, row: &[u8]) -> io::Result<()> {
        self.room(row.len())?.copy_from_slice(row);
        Ok(())
    }

    // Sends the piece, and begins the next.
    pub fn send(&mut self) -> io::Result<()> {
        self.rt.write_all(&self.piece[..self.len])?;
        self.len = 0;
        Ok(())
    }
}

// The low 32 bits of a place or a length, which is all of it in a file that is sent.
pub fn low(x: usize) -> u32 {
    (x & 0xffff_ffff) as u32
}
