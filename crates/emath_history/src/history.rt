// The pointer's last positions with their times. The caller lends the samples' places, and they are used as a ring:
// no sample moves when the oldest is dropped.
ghost use Rattle.std.specs.Prelude.{◌≡◌, List, [], ◌+◌, ◌*◌, ◌<◌, Float, length, set};
ghost use Rattle.emath.specs.History.{max_len, flush, duration, velocity};
ghost use Rattle.emath_history.specs.Ring.{count, free, grown, view, Added, Cleared, position_at, set_position};

use emath::pos2::Pos2;
use emath::vec2::Vec2;

pub const MIN_LEN: usize = 2;

pub const MAX_LEN: usize = 1000;

// of the positions: x and y of each
pub const PARTS: usize = 2 * MAX_LEN;

pub const MAX_AGE: f32 = 0.1;

// `len` samples from place `start` on. Any numbers mean something: the place is taken modulo 1,000, and a larger count is 1,000.
// Kept (C): the samples lie in two arrays that C lends; the count is a field of the record by value.
#[derive(Clone, Copy)]
pub struct History {
    pub start: usize,
    pub len: usize,
}

// Kept (C): two arrays, and no struct of loans: a host lends them apart. `flush` and `duration` read the times alone, and what
// an addition leaves of each is said of that array.
impl History {
    #[tactic(auto, unfolding(crate::specs::Ring::view, crate::specs::Ring::samples))]
    pub fn new() -> History
        ensures { (times positions : List Float) → view times positions result ≡ [] }
    {
        History { start: 0, len: 0 }
    }

    #[tactic(auto, unfolding(crate::specs::Ring::view, crate::specs::Ring::samples))]
    pub fn clear(self) -> History
        ensures { Cleared self result }
    {
        History { len: 0, ..self }
    }

    #[tactic(auto, using(crate::proofs::Samples::view_count))]
    pub fn len(self) -> usize
        ensures { (times positions : List Float) → result ≡ length (view times positions self) }
    {
        self.count()
    }

    #[tactic(auto, using(crate::proofs::Samples::add_grown))]
    pub fn add(
        self,
        times: &mut [f64; MAX_LEN],
        positions: &mut [f32; PARTS],
        time: f64,
        pos: Pos2,
    ) -> History
        ensures { Added self time pos times.old positions.old result times.new positions.new }
    {
        let i = self.free();
        set_time(times, i, time);
        set_position(positions, i, pos);
        self.grown().flush(times, time)
    }

    // Drops old samples from the front, down to two.
    pub fn flush(self, times: &[f64; MAX_LEN], time: f64) -> History
        ensures { (positions : List Float) → view times.now positions result ≡ flush time (view times.now positions self) }
    {
        let limit = time - MAX_AGE as f64;
        let mut start = self.start % MAX_LEN;
        let mut len = self.count();
        // Kept (plain): no `for`: it ends where a sample is young enough, and a ring's place goes on from the last to the first
        while MIN_LEN < len && times[start] < limit {
            start = (start + 1) % MAX_LEN;
            len -= 1;
        }
        History { start, len }
    }

    // From the oldest sample to the newest, in seconds.
    #[tactic(auto, using(crate::proofs::Samples::duration_none, crate::proofs::Samples::duration_some), unfolding(crate::specs::Ring::view))]
    pub fn duration(self, times: &[f64; MAX_LEN]) -> f32
        ensures { (positions : List Float) → result ≡ duration (view times.now positions self) }
    {
        let n = self.count();
        if n == 0 {
            return 0.0;
        }
        let first = self.start % MAX_LEN;
        let last = (first + (n - 1)) % MAX_LEN;
        ieee_narrow::narrow(times[last] - times[first])
    }

    #[tactic(auto, using(crate::proofs::Samples::velocity_none, crate::proofs::Samples::velocity_some, crate::proofs::Samples::velocity_slow), unfolding(crate::specs::Ring::view))]
    pub fn velocity(self, times: &[f64; MAX_LEN], positions: &[f32; PARTS]) -> Option<Vec2>
        ensures { result ≡ velocity (view times.now positions.now self) }
    {
        let n = self.count();
        if n == 0 {
            return None;
        }
        let dt = self.duration(times);
        if dt > 0.0 {
            let first = self.start % MAX_LEN;
            let last = (first + (n - 1)) % MAX_LEN;
            let from = position_at(positions, first);
            let to = position_at(positions, last);
            return Some((to - from) / dt);
        }
        None
    }

    fn count(self) -> usize
        ensures { result ≡ count self }
    {
        self.len.min(MAX_LEN)
    }

    // The place for one sample more: the one after the newest, which is the oldest's where all are taken.
    fn free(self) -> usize
        ensures { result ≡ free self }
    {
        (self.start % MAX_LEN + self.count()) % MAX_LEN
    }

    // One sample more at the end. Where all places are taken, the oldest sample's is the one that was written.
    #[tactic(auto, using(crate::proofs::Samples::place_next), unfolding(crate::specs::Ring::grown))]
    fn grown(self) -> History
        ensures { result ≡ grown self }
    {
        if self.len < MAX_LEN {
            return History {
                len: self.len + 1,
                ..self
            };
        }
        History {
            start: (self.start % MAX_LEN + 1) % MAX_LEN,
            len: MAX_LEN,
        }
    }
}

fn set_time(times: &mut [f64], i: usize, time: f64)
    requires { i < length times.old }
    ensures { times.new ≡ set times.old i time }
{
    times[i] = time;
}

// Kept (C): a host lends the positions as floats, x and y of each one after the other.
fn set_position(positions: &mut [f32], i: usize, pos: Pos2)
    requires { i * 2 + 1 < length positions.old }
    ensures { positions.new ≡ set_position positions.old i pos }
{
    positions[i * 2] = pos.x;
    positions[i * 2 + 1] = pos.y;
}

// Kept (C): as `set_position`.
#[tactic(auto, unfolding(crate::specs::Ring::position_at))]
fn position_at(positions: &[f32; PARTS], i: usize) -> Pos2
    requires { i < max_len }
    ensures { result ≡ position_at positions.now i }
{
    Pos2 {
        x: positions[i * 2],
        y: positions[i * 2 + 1],
    }
}
