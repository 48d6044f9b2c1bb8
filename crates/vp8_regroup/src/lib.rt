// An example for those who regroup fields: the loop filter's level and sharpness (RFC 6386 section 9.4) read as one literal of nine bools,
// under the contracts that their two reads have. The parser does not use it.
#![tactic(auto)]

ghost use Rattle.rfc6386.specs.Reads.{make};
ghost use Rattle.bool_decoder.specs.Model.{Room, Ran};
ghost use Rattle.vp8_header.specs.Stages.{first, first_of};
ghost use Rattle.vp8_regroup.specs.Filter.{filter, filter_of};

use bool_decoder::BoolDecoder;
use vp8_fields::segmentation::update_segmentation;
use vp8_header::First;
use vp8_records::{Mode, Segmentation};

// The loop filter's level and sharpness.
#[derive(Clone, Copy)]
pub struct Filter {
    // Six bools (9.4).
    pub level: u8,
    // Three bools (9.4).
    pub sharpness: u8,
}

// Both by one literal: its three low bits are the sharpness.
pub fn read_filter(dec: &mut BoolDecoder) -> Filter
    requires { Room dec.old 9 }
    ensures { Ran filter dec.old (filter_of result) dec.new 9 }
{
    let both = dec.read_literal(9);
    Filter {
        level: (both / 8) as u8,
        sharpness: (both % 8) as u8,
    }
}

// The header's first stage, with the contract of the one in `vp8_header`.
pub fn parse_first(dec: &mut BoolDecoder, key: bool, seg: Segmentation, mode: Mode) -> First
    requires { Room dec.old 111 }
    ensures { Ran (make (first_of seg) (first mode key)) dec.old result dec.new 111 }
{
    let color_space = dec.flag_if(key);
    let clamping_type = dec.flag_if(key);
    let segmentation = update_segmentation(dec, seg, mode).value;
    let filter_type = dec.read_flag();
    let filter = read_filter(dec);
    First {
        color_space,
        clamping_type,
        segmentation,
        filter_type,
        loop_filter_level: filter.level,
        sharpness_level: filter.sharpness,
    }
}
