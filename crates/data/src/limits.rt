// 01's limits on counts. specs/Limits.antt has the same under the same names.

pub const MAX_EVENTS: usize = 64;

pub const MAX_DEVICES: usize = 4;

pub const MAX_TOUCHES: usize = 10;

pub const MAX_WIDGETS: usize = 1024;

pub const MAX_LAYERS: usize = 32;

pub const MAX_HITS: usize = 64;

pub const ID_PLACES: usize = 66;

pub const KEY_COUNT: u32 = 145;

pub const BUTTON_COUNT: u32 = 5;

pub const UNIT_COUNT: u32 = 3;

pub const MAX_ORDER: u32 = 4;

pub const MAX_TALLY: u32 = 4294967295;
