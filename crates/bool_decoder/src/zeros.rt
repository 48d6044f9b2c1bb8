// The bools of a table of chances, up to the first that is set. Nearly all are 0, and most of those are told by the limit alone, with no
// look at the window: these are passed over, four at a time where four are left. Below `seek` the table goes
// with a place in it, since slices of what is left cost more (docs/SPEED.md).
ghost use Rattle.std.specs.Prelude.{◌≡◌, ◌*◌, ◌/◌, ◌<◌, ◌≤◌, length};
ghost use Rattle.bool_decoder.specs.Model.{Room};
ghost use Rattle.bool_decoder.specs.Quiet.{ReadsAhead, Skips, Seeks};

use crate::BoolDecoder;

// What a 0 leaves of the range, both taken less 1, so that nothing is added at a step.
fn step(low: u32, p: u8) -> u32
    requires { low < 256 }
    ensures { (result ≡ low * p / 256) × (result * 256 ≤ low * 255) }
{
    low * (p as u32) / 256
}

impl BoolDecoder<'_> {
    // Zeros that the limit tells, four at a time: the range falls, so the last of them tells for all.
    #[inline(always)]
    fn fours(&mut self, table: &[u8], from: usize) -> usize
        requires { ReadsAhead table.now from self.old }
        ensures { Skips table.now from self.old result self.new }
    {
        let bound = self.window.limit - 1;
        let mut low = self.window.range - 1;
        let mut i = from;
        // By index, four at a step: the place where it stops is the answer.
        while i + 3 < table.len() {
            let a = step(low, table[i]);
            let b = step(a, table[i + 1]);
            let c = step(b, table[i + 2]);
            let d = step(c, table[i + 3]);
            if d < bound {
                break;
            }
            low = d;
            i += 4;
        }
        self.window.range = low + 1;
        self.window.bools += (i - from) as u32;
        i
    }

    // The same one at a time.
    #[inline(always)]
    fn singles(&mut self, table: &[u8], from: usize) -> usize
        requires { ReadsAhead table.now from self.old }
        ensures { Skips table.now from self.old result self.new }
    {
        let bound = self.window.limit - 1;
        let mut low = self.window.range - 1;
        let mut i = from;
        // By index: the place where it stops is the answer.
        while i < table.len() {
            let next = step(low, table[i]);
            if next < bound {
                break;
            }
            low = next;
            i += 1;
        }
        self.window.range = low + 1;
        self.window.bools += (i - from) as u32;
        i
    }

    // All of them, up to the first that needs the window.
    #[inline(always)]
    fn pass(&mut self, table: &[u8], from: usize) -> usize
        requires { ReadsAhead table.now from self.old }
        ensures { Skips table.now from self.old result self.new }
    {
        let at = self.fours(table, from);
        self.singles(table, at)
    }

    // Reads up to the first entry of the table whose bool is set, and gives its place; or all of them.
    #[inline(always)]
    pub fn seek(&mut self, table: &[u8]) -> Option<usize>
        requires { Room self.old (length table.now) }
        ensures { Seeks table.now self.old result self.new }
    {
        let mut i = 0;
        // By index: zeros are passed over by more than one.
        while i < table.len() {
            if self.read_bit(table[i]) {
                return Some(i);
            }
            i = self.pass(table, i + 1);
        }
        None
    }
}
