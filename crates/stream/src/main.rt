// The subject of the comparison under tests/: it answers a stream of requests, to the finders and to the writer, with the answers and every
// word and byte of what it lent. tests/reference/README.md has the protocol.
#![tactic(auto)]

use std::io;
use std::io::Read;
use wire::{Input, Output};

mod wire; // wire.rt: what comes in and what goes out
mod lent; // lent.rt: what is lent to the finders and the writer
mod finding; // finding.rt: the finders' requests
mod rows; // rows.rt: the writer's requests

// Answers one request, which begins with two numbers; an error where the stream has ended or cannot go on.
fn serve(
    words: &mut [u32; rows::MOST],
    input: &mut Input<impl Read>,
    out: &mut Output<impl Print>,
) -> io::Result<()> {
    let mut head = [0; 2];
    input.numbers(&mut head)?;
    let [size, noise] = head;
    // A length that no file has marks a request to the writer.
    if size == 4_294_967_294 {
        return rows::serve(noise, words, input, out);
    }
    finding::serve(size, noise, input, out)
}

// Answers requests until the stream ends. They are counted, since a loop is proved to end.
fn serve_all(
    words: &mut [u32; rows::MOST],
    input: &mut Input<impl Read>,
    out: &mut Output<impl Print>,
) -> io::Result<()> {
    for _ in 0..1_000_000_000u64 {
        serve(words, input, out)?;
    }
    Ok(())
}

fn main(rt: HostRuntime) {
    let mut words = [0; rows::MOST];
    let mut input = Input::new(rt.stdin());
    let mut out = Output::new(&rt);
    let _ = serve_all(&mut words, &mut input, &mut out);
}
