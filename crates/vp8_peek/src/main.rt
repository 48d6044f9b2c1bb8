// The looking program: what the first bytes of a frame tell. It reads at most ten bytes of standard input and waits for no more.
#![tactic(auto)]

use text::Text;

fn main(rt: HostRuntime) {
    let mut first = [0u8; 10];
    let bytes = lines::take(&mut rt.reader(), &mut first, 10);
    let mut out = Text::<[u8; 256]>::new();
    vp8_show::print::look(&mut out, vp8_parser::peek(bytes));
    let _ = lines::show(&rt, out.as_bytes());
}
