// What a replay keeps beside the machine.
use trace_parking::park::{IMAGE_PLACES, Image};
use trace_state::lent::Arrays;
use trace_widgets::lent::SetArrays;

// What the panel's calls are lent, the arrays beside the set, and the last image.
#[derive(Drop)]
pub struct Memory {
    pub lent: Arrays,
    pub set: SetArrays,
    pub image: Image,
}

impl Default for Memory {
    fn default() -> Memory {
        Memory {
            lent: Arrays::default(),
            set: SetArrays::default(),
            image: [0; IMAGE_PLACES],
        }
    }
}
