// The kinds of "The feed". specs/Kinds.antt has the same under the same names.
// Kept (01): "The decoder matches the kind number over 0 to 15", so the kinds are numbers, those that stand for no event among them.

// What one kind counts in an event's first word: its top 4 bits are the kind.
pub const KIND_UNIT: u32 = 0x1000_0000;

pub const KEY_KIND: u32 = 1;

pub const MODIFIERS_KIND: u32 = 2;

pub const MOVED_KIND: u32 = 3;

pub const MOTION_KIND: u32 = 4;

pub const BUTTON_KIND: u32 = 5;

pub const GONE_KIND: u32 = 6;

pub const ZOOM_KIND: u32 = 7;

pub const ROTATE_KIND: u32 = 8;

pub const TOUCH_KIND: u32 = 9;

pub const WHEEL_KIND: u32 = 10;

pub const FOCUS_KIND: u32 = 11;

pub const OTHER_KIND: u32 = 12;
