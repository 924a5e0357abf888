// Parts of an event in plain text.
ghost use Rattle.std.specs.Prelude.{◌<◌};

use std::fmt;
use trace_words::request::at;

// An f32 is its 24 digits, of which the first is not stored, times 2 to the power of its exponent less this.
const BIAS: u32 = 150;

const FIRST_DIGIT: u32 = 0x80_0000;

const SIGN: u32 = 0x8000_0000;

// A number divided by 2 to the power `by`, to the nearest, halves up.
fn rounded(m: u64, by: u32) -> u64 {
    if by == 0 {
        return m;
    }
    if by < 64 {
        return (m >> by).wrapping_add((m >> (by - 1)) % 2);
    }
    0
}

// Thousandths of the size of a float of the domain, of which none is as large as 2^24.
fn thousandths(bits: u32) -> u64 {
    let exponent = bits / FIRST_DIGIT % 256;
    let digits = bits % FIRST_DIGIT + FIRST_DIGIT;
    if exponent == 0 || exponent > BIAS {
        return 0;
    }
    rounded(u64::from(digits) * 1000, BIAS - exponent)
}

// A float by its bits, rounded to three places, of which those that are 0 at the end are left out.
#[derive(Clone, Copy)]
pub struct Float(pub u32);

impl fmt::Display for Float {
    fn fmt<W: fmt::Write>(&self, f: &mut fmt::Formatter<W>) -> fmt::Result {
        let t = thousandths(self.0);
        let sign = if self.0 >= SIGN { "-" } else { "" };
        let (whole, part) = (t / 1000, t % 1000);
        if part == 0 {
            write!(f, "{sign}{whole}")
        } else if part % 100 == 0 {
            write!(f, "{sign}{whole}.{}", part / 100)
        } else if part % 10 == 0 {
            write!(f, "{sign}{whole}.{:02}", part / 10)
        } else {
            write!(f, "{sign}{whole}.{part:03}")
        }
    }
}

#[derive(Clone, Copy)]
pub struct Pair(pub Float, pub Float);

impl fmt::Display for Pair {
    fn fmt<W: fmt::Write>(&self, f: &mut fmt::Formatter<W>) -> fmt::Result {
        write!(f, "({}, {})", self.0, self.1)
    }
}

// The two floats of which the first stands at `i`.
pub fn two_floats(e: &[u32], i: usize) -> Pair {
    Pair(Float(at(e, i)), Float(at(e, i.saturating_add(1))))
}

pub fn pressed(is: bool) -> &'static str {
    if is { "pressed" } else { "released" }
}

// By the numbers of a feed's words, as the decoder matches them; a number that it refuses has a name too.
pub const PHASES: [&str; 4] = ["start", "move", "end", "cancel"];

pub const UNITS: [&str; 4] = ["points", "lines", "pages", "pages"];

pub const SOURCES: [&str; 4] = ["unknown", "wheel", "trackpad", "momentum"];

// The names of the flags in the low five bits, each after a space.
#[derive(Clone, Copy)]
pub struct Flags(pub u32);

impl fmt::Display for Flags {
    fn fmt<W: fmt::Write>(&self, f: &mut fmt::Formatter<W>) -> fmt::Result {
        let mut bits = self.0;
        for name in [" alt", " ctrl", " shift", " mac_cmd", " command"] {
            if bits % 2 == 1 {
                f.write_str(name)?;
            }
            bits /= 2;
        }
        Ok(())
    }
}

// What was held beside a button or the wheel.
#[derive(Clone, Copy)]
pub struct Held(pub u32);

impl fmt::Display for Held {
    fn fmt<W: fmt::Write>(&self, f: &mut fmt::Formatter<W>) -> fmt::Result {
        if self.0 % 32 == 0 {
            return Ok(());
        }
        write!(f, ", with{}", Flags(self.0))
    }
}
