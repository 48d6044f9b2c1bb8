// What the walk lists, whole: recordings from standard input, each after the lengths of two lists (a byte each, at most 64) and its own
// (four bytes, least significant first, at most 65,536); a line for each with the answer and every entry of both lists, which are
// 1,000,000 and 2,000,000 and on before the walk. A bad record gets a line that says what is wrong, and ends the run.
#![tactic(auto)]

use ivf::Walked;
use lines::run::{Flow, Line, tell_each};
use lines::{CutShort, Fault};
use std::ops::ControlFlow;

// The entries before a walk.
fn fill<T: From<u32> + Drop>(list: &mut [T], first: u32) {
    for (entry, n) in list.iter_mut().zip(first..) {
        *entry = T::from(n);
    }
}

// A number after a space.
fn spaced(out: &mut Line, n: u64) {
    out.byte(b' ');
    out.decimal(n);
}

// The entries after a word.
fn put<T: Copy + Into<u64>>(out: &mut Line, word: &[u8], list: &[T]) {
    out.bytes(word);
    for &entry in list {
        spaced(out, entry.into());
    }
}

// The line of an answer.
fn line(out: &mut Line, walked: Walked, offsets: &[u64], lengths: &[u32]) {
    out.bytes(b"count");
    spaced(out, walked.count as u64);
    out.bytes(b" refused");
    spaced(out, u64::from(ivf::refusal_number(walked.ended)));
    put(out, b" offsets", offsets);
    put(out, b" lengths", lengths);
    out.byte(b'\n');
}

// The line of each recording's walk into lists of the lengths that it asks for. A line that cannot be written ends the run, and the status
// stays 0.
fn main(rt: HostRuntime) {
    let mut input = rt.reader();
    let mut file = [0u8; 65536];
    let mut offsets = [0u64; 64];
    let mut lengths = [0u32; 64];
    let _ = tell_each(&rt, |out: &mut Line| -> Flow<Fault> {
        let Some(of_offsets) = lines::take_byte(&mut input) else {
            return Ok(ControlFlow::Break(()));
        };
        // A second byte that does not come is more than a list has: the size, where that comes, is looked at before it.
        let of_lengths = lines::take_byte(&mut input).map_or(256, usize::from);
        let size = lines::take_le4(&mut input)?.ok_or(CutShort)?;
        let file = lines::take_sized(&mut input, &mut file, size, 65536)?;
        let offsets = offsets
            .get_mut(..usize::from(of_offsets))
            .ok_or(Fault::TooLarge)?;
        let lengths = lengths.get_mut(..of_lengths).ok_or(Fault::TooLarge)?;
        fill(offsets, 1000000);
        fill(lengths, 2000000);
        let walked = ivf::walk(file, offsets, lengths);
        line(out, walked, offsets, lengths);
        Ok(ControlFlow::Continue(()))
    });
}
