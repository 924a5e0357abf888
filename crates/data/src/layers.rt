// LayerId of egui's layers.rs.

// `order` is a plain number, so that one over 4 can be given and refused.
#[repr(C)]
#[derive(Clone, Copy, PartialEq, Eq, PartialOrd, Ord)]
pub struct LayerId {
    pub order: u32,
    pub id: u64,
}
