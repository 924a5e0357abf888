// The words and floats of a record. A NaN of either side stands for any other.
ghost use Rattle.std.specs.Prelude.{◌≡◌, ◌+◌, ◌*◌, ◌%◌, ◌<◌, ◌&&◌, ◌==◌, from_bits, to_bits};
ghost use Rattle.std.specs.Float.{binary32, binary64};
ghost use Rattle.emath_vectors.specs.Words.{word_at};

use emath::pos2::Pos2;
use emath::vec2::Vec2;
use ieee::bits::{from_bits32, from_bits64, to_bits32};

// Word i of the sixteen, the low byte first.
pub fn word(b: &[u8; 64], i: usize) -> u32
    ensures { result ≡ word_at b.now (i % 16 * 4) }
{
    let j = i % 16 * 4;
    u32::from_le_bytes([b[j], b[j + 1], b[j + 2], b[j + 3]])
}

pub fn f32_at(b: &[u8; 64], i: usize) -> f32
    ensures { result ≡ from_bits binary32 (word_at b.now (i % 16 * 4)) }
{
    from_bits32(word(b, i))
}

// Two words, the low one first.
pub fn f64_at(b: &[u8; 64], i: usize) -> f64
    ensures { result ≡ from_bits binary64 (word_at b.now (i % 16 * 4) + word_at b.now ((i % 16 + 1) % 16 * 4) * 0x1_0000_0000) }
{
    let w = word(b, i) as u64 + word(b, i % 16 + 1) as u64 * 0x1_0000_0000;
    from_bits64(w)
}

// Kept (plain): a vector and a position are types of their own, as in egui. A trait that makes either of its two parts would be
// longer than both functions.
pub fn vec_at(b: &[u8; 64], i: usize) -> Vec2
    ensures x_value { result.x ≡ from_bits binary32 (word_at b.now (i % 16 * 4)) }
    ensures y_value { result.y ≡ from_bits binary32 (word_at b.now ((i % 16 + 1) % 16 * 4)) }
{
    Vec2 {
        x: f32_at(b, i),
        y: f32_at(b, i % 16 + 1),
    }
}

// Kept (plain): as `vec_at`.
pub fn pos_at(b: &[u8; 64], i: usize) -> Pos2
    ensures x_value { result.x ≡ from_bits binary32 (word_at b.now (i % 16 * 4)) }
    ensures y_value { result.y ≡ from_bits binary32 (word_at b.now ((i % 16 + 1) % 16 * 4)) }
{
    Pos2 {
        x: f32_at(b, i),
        y: f32_at(b, i % 16 + 1),
    }
}

// Bit for bit, but that one NaN is like another.
pub fn same(x: f32, y: f32) -> bool
    ensures { result ≡ (to_bits binary32 x == to_bits binary32 y) }
{
    to_bits32(x) == to_bits32(y)
}

// Kept (plain): no `==`, which takes 0.0 and -0.0 for the same, and a NaN for none.
pub fn same_vec(v: Vec2, w: Vec2) -> bool
    ensures { result ≡ (to_bits binary32 v.x == to_bits binary32 w.x && to_bits binary32 v.y == to_bits binary32 w.y) }
{
    same(v.x, w.x) && same(v.y, w.y)
}
