// One record at a time: what emath answers against what is stored.
use crate::record::{f32_at, f64_at, pos_at, same, same_vec, vec_at, word};
use emath::rect::Rect;
use emath_history::history::{History, MAX_LEN, PARTS};

#[derive(Clone, Copy, Default)]
pub struct Tally {
    pub cases: u64,
    pub differ: u64,
}

impl Tally {
    fn count(&mut self, agrees: bool) {
        self.cases = self.cases.wrapping_add(1);
        if !agrees {
            self.differ = self.differ.wrapping_add(1);
        }
    }
}

// Words 1 to 4 are two vectors; then length, its square, normalized, abs, max_elem, distance and its square, and `!=`.
fn vector_agrees(b: &[u8; 64]) -> bool {
    let v = vec_at(b, 1);
    let w = vec_at(b, 3);
    let p = pos_at(b, 1);
    let q = pos_at(b, 3);
    same(v.length(), f32_at(b, 5))
        && same(v.length_sq(), f32_at(b, 6))
        && same_vec(v.normalized(), vec_at(b, 7))
        && same_vec(v.abs(), vec_at(b, 9))
        && same(v.max_elem(), f32_at(b, 11))
        && same(p.distance(q), f32_at(b, 12))
        && same(p.distance_sq(q), f32_at(b, 13))
        && (v != w) == (word(b, 14) == 1)
}

// Words 1 to 5 are two vectors and a factor; then sum, product, quotient, difference of positions, and height.
fn arithmetic_agrees(b: &[u8; 64]) -> bool {
    let v = vec_at(b, 1);
    let w = vec_at(b, 3);
    let p = pos_at(b, 1);
    let q = pos_at(b, 3);
    let k = f32_at(b, 5);
    let r = Rect { min: p, max: q };
    same_vec(v + w, vec_at(b, 6))
        && same_vec(v * k, vec_at(b, 8))
        && same_vec(v / k, vec_at(b, 10))
        && same_vec(p - q, vec_at(b, 12))
        && same(r.height(), f32_at(b, 14))
}

// The history that the records build, with its arrays, and what was counted.
#[derive(Clone, Copy)]
pub struct State {
    pub history_now: History,
    times: [f64; MAX_LEN],
    positions: [f32; PARTS],
    pub vectors: Tally,
    pub arithmetic: Tally,
    pub history: Tally,
}

impl State {
    pub fn new() -> State {
        State {
            history_now: History::new(),
            times: [0.0; MAX_LEN],
            positions: [0.0; PARTS],
            vectors: Tally::default(),
            arithmetic: Tally::default(),
            history: Tally::default(),
        }
    }

    // Word 1 is the operation: 0 begins an empty history at the place of word 6, 1 adds, 2 flushes, 3 clears.
    // Words 2 and 3 are the time, 4 and 5 the position.
    // Kept (plain): no enum, since the numbers are the file's, and are read here alone.
    fn step(&mut self, b: &[u8; 64]) {
        let h = self.history_now;
        let time = f64_at(b, 2);
        self.history_now = match word(b, 1) {
            0 => History {
                start: word(b, 6) as usize,
                len: 0,
            },
            1 => h.add(&mut self.times, &mut self.positions, time, pos_at(b, 4)),
            2 => h.flush(&self.times, time),
            _ => h.clear(),
        };
    }

    // Words 7 to 11: len, duration, whether there is a velocity, and the velocity.
    fn history_agrees(&self, b: &[u8; 64]) -> bool {
        let h = self.history_now;
        let velocity_agrees = match h.velocity(&self.times, &self.positions) {
            None => word(b, 9) == 0,
            Some(v) => word(b, 9) == 1 && same_vec(v, vec_at(b, 10)),
        };
        h.len() == word(b, 7) as usize
            && same(h.duration(&self.times), f32_at(b, 8))
            && velocity_agrees
    }

    // Word 0 is the kind: 0 vectors, 1 arithmetic, any other a history.
    // Kept (plain): no enum, as in `step`.
    pub fn replay(&mut self, b: &[u8; 64]) {
        match word(b, 0) {
            0 => self.vectors.count(vector_agrees(b)),
            1 => self.arithmetic.count(arithmetic_agrees(b)),
            _ => {
                self.step(b);
                let agrees = self.history_agrees(b);
                self.history.count(agrees);
            }
        }
    }
}
