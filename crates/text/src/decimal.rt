// Numbers in decimal.
ghost use Rattle.std.specs.Prelude.{◌≡◌, ◌≤◌, [], length, drop};
ghost use Rattle.text.specs.Emit.{lit, cut};
ghost use Rattle.text.specs.Decimal.{digits, unsigned, decimal};
ghost use Rattle.text.specs.Buffer.{Writes};

use crate::buffer::{Buffer, fill};

// The most digits of a u32 and of a usize.
const OF_U32: usize = 10;

const OF_USIZE: usize = 20;

// The digits of n, at the end of buf; where they start.
pub fn fill_back(buf: &mut [u8], n: usize) -> usize
    ensures { (result ≤ length buf.new) × (drop result buf.new ≡ digits (length buf.old) n []) }
{
    let mut v = n;
    for i in (0..buf.len()).rev() {
        buf[i] = b'0' + (v % 10) as u8;
        if v < 10 {
            return i;
        }
        v /= 10;
    }
    0
}

// As many of the at most N digits of n as there is room for; how many it has.
fn fill_digits<const N: usize>(rest: &mut [u8], n: usize) -> usize
    requires { N ≤ 20 }
    ensures { (rest.new ≡ cut rest.old (digits N n [])) × (result ≡ length (digits N n [])) }
{
    let mut buf = [0u8; N];
    let i = fill_back(&mut buf, n);
    let all = &buf[..];
    fill(rest, &all[i..]);
    N - i
}

impl Buffer<'_> {
    // A number of at most N digits.
    fn put_digits<const N: usize>(&mut self, n: usize)
        requires { N ≤ 20 }
        ensures { Writes (lit (digits N n [])) self.old self.new }
    {
        if self.is_past() {
            return;
        }
        let at = self.at;
        let count = fill_digits::<N>(&mut self.bytes[at..], n);
        self.at = self.place_after(count);
    }

    // A u32.
    #[tactic(auto, unfolding(crate::specs::Decimal::unsigned))]
    pub fn put_unsigned(&mut self, n: u32)
        ensures { Writes (lit (unsigned n)) self.old self.new }
    {
        self.put_digits::<OF_U32>(n as usize);
    }

    // A usize.
    pub fn put_usize(&mut self, n: usize)
        ensures { Writes (lit (digits 20 n [])) self.old self.new }
    {
        self.put_digits::<OF_USIZE>(n);
    }

    // The i32 whose bits are n.
    pub fn put_decimal(&mut self, n: u32)
        ensures { Writes (lit (decimal n)) self.old self.new }
    {
        if n < 0x8000_0000 {
            self.put_unsigned(n);
            return;
        }
        self.put(b'-');
        self.put_unsigned(n.wrapping_neg());
    }
}
