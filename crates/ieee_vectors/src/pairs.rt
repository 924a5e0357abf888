// The comparison, on a slice.
ghost use Rattle.std.specs.Prelude.{◌≡◌, ◌+◌, ◌/◌, ◌%◌, ◌^◌, ◌<◌, ◌≤◌, length, from_bits};
ghost use Rattle.std.specs.Float.{binary32};
ghost use Rattle.ieee_vectors.specs.Pairs.{word, answer, stored, is_different, differing};

use ieee::bits::{from_bits32, from_bits64, to_bits32, to_bits64};

// two words: the operand's pattern and the result's
pub const PAIR: usize = 16;

// The function that a chunk of pairs belongs to.
#[derive(Clone, Copy)]
pub enum Kind {
    Narrow,
    Sqrt32,
    Sqrt64,
}

fn word_at(s: &[u8], at: usize) -> u64
    requires { at + 8 ≤ length s.now }
    ensures { result ≡ word s.now at }
{
    u64::from_le_bytes([
        s[at],
        s[at + 1],
        s[at + 2],
        s[at + 3],
        s[at + 4],
        s[at + 5],
        s[at + 6],
        s[at + 7],
    ])
}

fn value32(b: u64) -> f32
    ensures { result ≡ from_bits binary32 (b % 2 ^ 32) }
{
    from_bits32((b % 0x1_0000_0000) as u32)
}

impl Kind {
    fn computed(self, x: u64) -> u64
        ensures { result ≡ answer self x }
    {
        match self {
            Kind::Narrow => to_bits32(ieee_narrow::narrow(from_bits64(x))) as u64,
            Kind::Sqrt32 => to_bits32(ieee_sqrt::sqrt32(value32(x))) as u64,
            Kind::Sqrt64 => to_bits64(ieee_sqrt::sqrt64(from_bits64(x))),
        }
    }

    fn expected(self, y: u64) -> u64
        ensures { result ≡ stored self y }
    {
        match self {
            Kind::Narrow | Kind::Sqrt32 => to_bits32(value32(y)) as u64,
            Kind::Sqrt64 => to_bits64(from_bits64(y)),
        }
    }

    fn differs(self, s: &[u8], at: usize) -> bool
        requires { at + 16 ≤ length s.now }
        ensures { result ≡ is_different self s.now at }
    {
        let x = self.computed(word_at(s, at));
        let y = self.expected(word_at(s, at + 8));
        x != y
    }

    // How many of the pairs of s differ.
    #[tactic(auto, unfolding(crate::specs::Pairs::differing))]
    pub fn differ(self, s: &[u8]) -> u64
        ensures { result ≡ differing self s.now (length s.now / PAIR) }
    {
        let mut count: u64 = 0;
        for i in 0..s.len() / PAIR {
            if self.differs(s, i * PAIR) {
                count += 1;
            }
        }
        count
    }
}
