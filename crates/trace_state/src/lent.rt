// What the panel's calls are lent: the history's samples, the pass's pointer events, the presses of each key.
use emath_history::history::{MAX_LEN, PARTS};
use key_state::keys::PRESSES;
use pointer_events::{CODES, PLACES};

#[derive(Drop)]
pub struct Arrays {
    pub times: [f64; MAX_LEN],
    pub positions: [f32; PARTS],
    pub codes: [u32; CODES],
    pub places: [f32; PLACES],
    pub presses: [u8; PRESSES],
}

impl Default for Arrays {
    fn default() -> Arrays {
        Arrays {
            times: [0.0; MAX_LEN],
            positions: [0.0; PARTS],
            codes: [0; CODES],
            places: [0.0; PLACES],
            presses: [0; PRESSES],
        }
    }
}
