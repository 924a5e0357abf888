// A set of numbers below 256, a bit each.
ghost use Rattle.std.specs.Prelude.{◌≡◌, false, ℕ, ◌^◌, ◌<◌};
ghost use Rattle.key_state.specs.Bits.{bit, word_with, has, with_member};

// Kept (01): a 256-bit set, in four words.
#[derive(Clone, Copy)]
pub struct Set256 {
    pub words: [u64; 4],
}

pub fn none() -> Set256
    ensures { (k : ℕ) → has result k ≡ false }
{
    let words = [0; 4];
    Set256 { words }
}

fn power(i: u32) -> u64
    requires { i < 64 }
    ensures { result ≡ 2 ^ i }
{
    1u64 << i
}

fn bit(w: u64, i: u32) -> bool
    requires { i < 64 }
    ensures { result ≡ bit i w }
{
    let p = power(i);
    w / p % 2 == 1
}

// The word with bit i as it is told.
fn word_with(w: u64, i: u32, present: bool) -> u64
    requires { i < 64 }
    ensures { result ≡ word_with i present w }
{
    let p = power(i);
    if bit(w, i) {
        if present {
            return w;
        }
        return w - p;
    }
    if present {
        return w + p;
    }
    w
}

pub fn has(s: Set256, k: u32) -> bool
    ensures { result ≡ has s k }
{
    if k < 256 {
        let i = (k / 64) as usize;
        return bit(s.words[i], k % 64);
    }
    false
}

// k put in or taken out; what is no member of any set stays none.
pub fn set(s: Set256, k: u32, present: bool) -> Set256
    ensures { (j : ℕ) → has result j ≡ with_member k present s j }
{
    if k < 256 {
        let mut words = s.words;
        let i = (k / 64) as usize;
        words[i] = word_with(words[i], k % 64, present);
        return Set256 { words };
    }
    s
}
