// What differs first between an answer of the parser and a stored one.
#![tactic(auto)]

ghost use Rattle.std.specs.Prelude.{◌≡◌, ◌+◌, ◌<◌, ◌^◌, length, drop};
ghost use Rattle.vp8_records.specs.Start.{fresh};
ghost use Rattle.vp8_flat.specs.Bytes.{kept_bytes};
ghost use Rattle.vp8_flat.specs.Numbers.{front_numbers};
ghost use Rattle.vp8_compare.specs.Apart.{apart_by, apart};
ghost use Rattle.vp8_compare.specs.Found.{back_numbers, header_numbers, prob_bytes};
ghost use Rattle.vp8_compare.specs.Found.{header_found, answer_found, found_of};

use std::fmt;
use vp8_records::{Header, Parsed, Parser};

// A stored answer, as a list has it; of a frame that is refused the header's part says nothing.
#[derive(Clone, Copy)]
pub struct Stored<'a> {
    // The number of the refusal, 0 for none, and what it carries.
    pub given: &'a [u32; 3],
    // The header's numbers.
    pub numbers: &'a [u32],
    // The header's probabilities.
    pub probs: &'a [u8],
    // The kept numbers after the call.
    pub kept: &'a [u8],
}

// What differs, in the order in which a list has an answer.
#[derive(Clone, Copy, PartialEq, Eq, Debug)]
pub enum Difference {
    // The number of the refusal.
    Refusal,
    // What the refusal carries.
    Carried,
    // A number of an accepted frame's header, by its place.
    Number(usize),
    // A probability of the header, by its place.
    Probability(usize),
    // A kept number, by its place.
    Kept(usize),
}

// In words; numbers and probabilities are counted from 0.
impl fmt::Display for Difference {
    fn fmt<W: fmt::Write>(&self, f: &mut fmt::Formatter<W>) -> fmt::Result {
        match self {
            Difference::Refusal => write!(f, "the refusal"),
            Difference::Carried => write!(f, "what the refusal carries"),
            Difference::Number(n) => write!(f, "header number {n}"),
            Difference::Probability(n) => write!(f, "header probability {n}"),
            Difference::Kept(n) => write!(f, "kept number {n}"),
        }
    }
}

// The first place where `a` differs from what `b` holds from `from` on, counted as `b` counts.
fn first_apart<T: PartialEq>(a: &[T], b: &[T], from: usize) -> Option<usize>
    requires { from + length a.now < 2 ^ 64 }
    ensures { result ≡ apart_by T.eq from a.now (drop from b.now) }
{
    for (at, x) in (from..).zip(a) {
        if b.get(at) != Some(x) {
            return Some(at);
        }
    }
    None
}

// The first thirty numbers of a header.
fn front_apart(h: Header, stored: &[u32]) -> Option<usize>
    ensures { result ≡ apart 0 (front_numbers h) stored.now }
{
    let shape = vp8_flat::header::shape(h);
    let sizes = h.partition_size;
    let quantizers = vp8_flat::header::quantizers(h.quant_indices);
    first_apart(&shape, stored, 0)
        .or(first_apart(&sizes, stored, 16))
        .or(first_apart(&quantizers, stored, 24))
}

// The other twenty-one.
fn back_apart(h: Header, stored: &[u32]) -> Option<usize>
    ensures { result ≡ apart 30 (back_numbers h) (drop 30 stored.now) }
{
    let flags = vp8_flat::header::flags(h);
    let tail = vp8_flat::header::tail(h);
    first_apart(&flags, stored, 30).or(first_apart(&tail, stored, 43))
}

fn header_apart(h: Header, stored: &[u32]) -> Option<usize>
    ensures { result ≡ apart 0 (header_numbers h) stored.now }
{
    front_apart(h, stored).or(back_apart(h, stored))
}

// The header's probabilities: coefficients, motion, modes.
fn probs_apart(h: Header, stored: &[u8]) -> Option<usize>
    ensures { result ≡ apart 0 (prob_bytes h) stored.now }
{
    let coeffs = vp8_flat::coeffs(h.coeff_prob);
    let motion = vp8_flat::motion(h.mv_prob);
    let modes = vp8_flat::modes(h.mode_probs);
    first_apart(&coeffs, stored, 0)
        .or(first_apart(&motion, stored, 1056))
        .or(first_apart(&modes, stored, 1094))
}

fn kept_apart(parser: Parser, stored: &[u8]) -> Option<usize>
    ensures { result ≡ apart 0 (kept_bytes parser) stored.now }
{
    let kept = vp8_flat::kept(parser);
    first_apart(&kept, stored, 0)
}

// Where the kept numbers of a fresh parser differ from the stored ones.
pub fn fresh_apart(stored: &[u8]) -> Option<usize>
    ensures { result ≡ apart 0 (kept_bytes fresh) stored.now }
{
    kept_apart(Parser::new(), stored)
}

#[tactic(auto, using(crate::proofs::Maps::mapped), unfolding(crate::specs::Found::header_found))]
fn in_header(h: Header, stored: Stored) -> Option<Difference>
    ensures { result ≡ header_found h stored.entry }
{
    let number = header_apart(h, stored.numbers).map(Difference::Number);
    number.or(probs_apart(h, stored.probs).map(Difference::Probability))
}

// The refusal and what it carries, as the numbers that a list has; of an accepted frame the header.
#[tactic(auto, unfolding(crate::specs::Found::answer_found, crate::specs::Found::answer_by))]
fn in_answer(parsed: Parsed, stored: Stored) -> Option<Difference>
    ensures { result ≡ answer_found parsed stored.entry }
{
    let refusal = vp8_flat::header::refusal(parsed.outcome);
    let [number, a, b] = *stored.given;
    if refusal.number != number {
        return Some(Difference::Refusal);
    }
    if refusal.a != u64::from(a) || refusal.b != u64::from(b) {
        return Some(Difference::Carried);
    }
    if refusal.number != 0 {
        return None;
    }
    in_header(parsed.header, stored)
}

// The first difference between an answer and the stored one; none where they are the same.
#[tactic(auto, using(crate::proofs::Maps::mapped), unfolding(crate::specs::Found::found_of))]
pub fn first(parsed: Parsed, stored: Stored) -> Option<Difference>
    ensures { result ≡ found_of parsed stored.entry }
{
    let kept = kept_apart(parsed.parser, stored.kept);
    in_answer(parsed, stored).or(kept.map(Difference::Kept))
}
