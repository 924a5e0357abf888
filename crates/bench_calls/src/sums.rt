// A sum of what the calls answered, so that no answer is left out of the code that runs.
use emath::pos2::Pos2;
use emath::vec2::Vec2;

pub fn mix(h: u64, w: u64) -> u64 {
    (h.rotate_left(5) ^ w).wrapping_add(0x9e37_79b9_7f4a_7c15)
}

pub fn flag(h: u64, b: bool) -> u64 {
    mix(h, u64::from(b))
}

pub fn single(h: u64, x: f32) -> u64 {
    if x != x {
        return mix(h, 0x7fc0_0000);
    }
    mix(h, u64::from(f32::to_bits(x)))
}

pub fn double(h: u64, x: f64) -> u64 {
    if x != x {
        return mix(h, 0x7ff8_0000_0000_0000);
    }
    mix(h, f64::to_bits(x))
}

pub fn vec2(h: u64, v: Vec2) -> u64 {
    single(single(h, v.x), v.y)
}

pub fn pos2(h: u64, p: Pos2) -> u64 {
    single(single(h, p.x), p.y)
}

// One more, if it is so.
pub fn one_if(n: u64, b: bool) -> u64 {
    n.wrapping_add(u64::from(b))
}
