// What the programs over whole frames share: frames from standard input, and an answer in words. `print` has the lines of the printing
// program, `dump` a line with every number of the answer and of the parser after it. Both put their text after what is in a `Text`.
#![tactic(auto, using(text::proofs::Puts::writes))]

pub mod dump;
pub mod input;
pub mod print;

ghost use Rattle.std.specs.Prelude.{Err, ◌≡◌, ◌++◌};
ghost use Rattle.text.specs.Told.{Puts};
ghost use Rattle.text.specs.Digits.{decimal_of};
ghost use Rattle.vp8_show.specs.Refusal.{refusal_text, look_text};

use text::{Buffer, Text};
use vp8_records::{Look, PeekRefusal, Refusal};

// The words of a refusal and the template of a look, as one of the programs has them.
#[derive(Clone, Copy)]
struct Words<'a> {
    // Before the refusal's number.
    refused: &'a [u8],
    // Before what 2 carries.
    code: &'a [u8],
    // Before the two numbers that 3 carries.
    end: &'a [u8],
    length: &'a [u8],
    // What a look saw.
    seen: &'a [u8],
}

// A word, then a number.
fn named<B: Buffer>(out: &mut Text<B>, word: &[u8], n: u64)
    ensures { Puts B.place B.items out.old (word.now ++ decimal_of n) out.new }
{
    out.bytes(word);
    out.decimal(n);
}

// A refusal: its number, and what 2 and 3 carry.
#[tactic(auto, using(text::proofs::Puts::writes), unfolding(crate::specs::Refusal::refusal_text))]
fn refused<B: Buffer>(out: &mut Text<B>, words: &Words, refusal: Refusal)
    ensures { Puts B.place B.items out.old (refusal_text words.now.refused.now words.now.code.now words.now.end.now words.now.length.now (Err refusal)) out.new }
{
    named(out, words.refused, u64::from(refusal.number()));
    match refusal {
        Refusal::InvalidStartCode(code) => named(out, words.code, u64::from(code)),
        Refusal::InvalidPartitionSize(end, length) => {
            named(out, words.end, end as u64);
            named(out, words.length, length as u64);
        }
        _ => {}
    }
}

// What a look saw, or its refusal.
#[tactic(auto, using(text::proofs::Puts::writes), unfolding(crate::specs::Refusal::look_text, crate::specs::Refusal::refusal_text))]
fn looked<B: Buffer>(out: &mut Text<B>, words: &Words, peeked: Result<Look, PeekRefusal>)
    ensures { Puts B.place B.items out.old (look_text words.now.seen.now words.now.refused.now words.now.code.now peeked) out.new }
{
    match peeked {
        Ok(look) => out.fill(words.seen, &vp8_flat::header::look(look)),
        Err(refusal) => refused(out, words, Refusal::from(refusal)),
    }
}
