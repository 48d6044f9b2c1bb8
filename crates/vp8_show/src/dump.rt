// The line of the dump: `ok` and every number of the header, or `err` and the refusal, and at the end the kept numbers after the call.
ghost use Rattle.std.specs.Prelude.{◌≡◌, ◌++◌};
ghost use Rattle.text.specs.Told.{Puts};
ghost use Rattle.text.specs.Digits.{hex_of};
ghost use Rattle.vp8_show.specs.Dumped.{delta_text, quant_text, probs_text, header_text, answer_text, dumped, dumped_look};

use crate::{Words, looked, named, refused};
use text::{Buffer, Text};
use vp8_flat::header::{flags, shape, tail};
use vp8_records::{Header, Look, Parsed, PeekRefusal, QuantIndices};

const WORDS: Words<'static> = Words {
    refused: b"err ",
    code: b" code=",
    end: b" end=",
    length: b" length=",
    seen: b"key=| ver=| show=| first=| w=| h=| hs=| vs=|",
};

// A delta with its sign, after a comma.
fn delta<B: Buffer>(out: &mut Text<B>, z: i8)
    ensures { Puts B.place B.items out.old (delta_text z) out.new }
{
    out.byte(b',');
    out.signed(i32::from(z));
}

// The quantizer index and the five deltas.
fn quantizer<B: Buffer>(out: &mut Text<B>, q: QuantIndices)
    ensures { Puts B.place B.items out.old (quant_text q) out.new }
{
    named(out, b" q=", u64::from(q.y_ac_qi));
    delta(out, q.y_dc_delta);
    delta(out, q.y2_dc_delta);
    delta(out, q.y2_ac_delta);
    delta(out, q.uv_dc_delta);
    delta(out, q.uv_ac_delta);
}

// A name, then bytes as hexadecimal digits.
fn named_bytes<B: Buffer>(out: &mut Text<B>, name: &[u8], bytes: &[u8])
    ensures { Puts B.place B.items out.old (name.now ++ hex_of bytes.now) out.new }
{
    out.bytes(name);
    out.hex(bytes);
}

fn probabilities<B: Buffer>(out: &mut Text<B>, h: Header)
    ensures { Puts B.place B.items out.old (probs_text h) out.new }
{
    named_bytes(out, b" modes=", &vp8_flat::modes(h.mode_probs));
    named_bytes(out, b" mv=", &vp8_flat::motion(h.mv_prob));
    named_bytes(out, b" coeff=", &vp8_flat::coeffs(h.coeff_prob));
}

// In this order: the tag, the sizes, the filter and the partitions; the quantizer; what the frame refreshes and copies, and its single
// probabilities; the others; the decoder's snapshot, and what follows from the whole header.
fn header<B: Buffer>(out: &mut Text<B>, h: Header)
    ensures { Puts B.place B.items out.old (header_text h) out.new }
{
    out.bytes(b"ok");
    out.fill(
        b" key=| ver=| show=| chunk=| first=| w=| h=| hs=| vs=| cs=| ct=| ft=| lvl=| sharp=| n=| log2=|",
        &shape(h),
    );
    out.fill(b" parts=|,|,|,|,|,|,|,|", &h.partition_size);
    quantizer(out, h.quant_indices);
    out.fill(
        b" rep=| rl=| rg=| ra=| cg=| ca=| sg=| sa=| skip=| psf=| pi=| pl=| pg=|",
        &flags(h),
    );
    probabilities(out, h);
    out.fill(
        b" range=| value=| count=| hsize=| bools=| cols=| rows=| past=|",
        &tail(h),
    );
}

#[tactic(auto, using(text::proofs::Puts::writes), unfolding(crate::specs::Dumped::answer_text))]
fn answer<B: Buffer>(out: &mut Text<B>, parsed: Parsed)
    ensures { Puts B.place B.items out.old (answer_text parsed) out.new }
{
    match parsed.outcome {
        Ok(()) => header(out, parsed.header),
        Err(refusal) => refused(out, &WORDS, refusal),
    }
}

// The line of an answer, without its end; under 6,000 bytes.
#[tactic(auto, using(text::proofs::Puts::writes), unfolding(crate::specs::Dumped::dumped))]
pub fn line<B: Buffer>(out: &mut Text<B>, parsed: Parsed)
    ensures { Puts B.place B.items out.old (dumped parsed) out.new }
{
    answer(out, parsed);
    named_bytes(out, b" st=", &vp8_flat::kept(parsed.parser));
}

// The line of a look, without its end; under 256 bytes.
pub fn look<B: Buffer>(out: &mut Text<B>, peeked: Result<Look, PeekRefusal>)
    ensures { Puts B.place B.items out.old (dumped_look peeked) out.new }
{
    out.bytes(b"peek ");
    looked(out, &WORDS, peeked);
}
