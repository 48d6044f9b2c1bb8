// The calls over blocks of `vp8_state`, exported for C and Rust: numbers and byte slices only. Each is the library's call of the same name,
// under the same contract.
#![tactic(auto)]

ghost use Rattle.std.specs.Prelude.{◌≡◌};
ghost use Rattle.vp8_state.specs.Handed.{left, state_read, state_write, state_parse};

// The record of a block into the caller's 1,126 bytes.
#[unsafe(no_mangle)]
pub extern "C" fn vp8_state_read(block: &[u8], bytes: &mut [u8]) -> u32
    ensures { left result bytes.new ≡ state_read block.now bytes.old }
{
    vp8_state::vp8_state_read(block, bytes)
}

// The record of 1,126 bytes into the caller's block.
#[unsafe(no_mangle)]
pub extern "C" fn vp8_state_write(bytes: &[u8], block: &mut [u8]) -> u32
    ensures { left result block.new ≡ state_write bytes.now block.old }
{
    vp8_state::vp8_state_write(bytes, block)
}

// One call over the record of the caller's block, which then holds the record that the call leaves, refused or not.
#[unsafe(no_mangle)]
pub extern "C" fn vp8_state_parse(mode: u32, block: &mut [u8], frame: &[u8]) -> u32
    ensures { left result block.new ≡ state_parse block.old (record { mode = mode; frame = frame.now }) }
{
    vp8_state::vp8_state_parse(mode, block, frame)
}
