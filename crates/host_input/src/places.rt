// The places of the input state's records in the host's arrays, and the arrays' lengths. specs/Places.antt names the same.

// ---- `seconds`
pub const TIME: usize = 0;

pub const POINTER_TIME: usize = 1;

pub const MAX_CLICK_DURATION: usize = 2;

pub const MAX_DOUBLE_CLICK_DELAY: usize = 3;

pub const PRESS_START_TIME: usize = 4;

pub const LAST_CLICK_TIME: usize = 5;

pub const LAST_LAST_CLICK_TIME: usize = 6;

pub const LAST_MOVE_TIME: usize = 7;

pub const LAST_WHEEL_EVENT: usize = 8;

pub const SECONDS: usize = 9;

// ---- `floats`: a position or a vector is two places, x and y
pub const UNSTABLE_DT: usize = 0;

pub const STABLE_DT: usize = 1;

pub const PREDICTED_DT: usize = 2;

pub const VIEWPORT_MIN: usize = 3;

pub const VIEWPORT_MAX: usize = 5;

pub const PIXELS_PER_POINT: usize = 7;

pub const LINE_SCROLL_SPEED: usize = 8;

pub const SCROLL_ZOOM_SPEED: usize = 9;

pub const MAX_CLICK_DIST: usize = 10;

pub const LATEST_POS: usize = 11;

pub const INTERACT_POS: usize = 13;

pub const DELTA: usize = 15;

pub const MOTION: usize = 17;

pub const VELOCITY: usize = 19;

pub const DIRECTION: usize = 21;

pub const PRESS_ORIGIN: usize = 23;

pub const LAST_CLICK_POS: usize = 25;

pub const UNPROCESSED_WHEEL_DELTA: usize = 27;

pub const SMOOTH_WHEEL_DELTA: usize = 29;

pub const ZOOM_FACTOR: usize = 31;

pub const ZOOM_EXPONENT: usize = 32;

pub const ROTATION_RADIANS: usize = 33;

pub const SMOOTH_SCROLL_DELTA: usize = 34;

pub const FLOATS: usize = 36;

// ---- `counts`
pub const HISTORY_START: usize = 0;

pub const HISTORY_LEN: usize = 1;

pub const EVENT_COUNT: usize = 2;

pub const DEVICES: usize = 3;

pub const COUNTS: usize = 4;

// ---- `flags`: modifiers are five places, in 01's order of the bits, and so are the buttons; of an Option, whether there is a value
pub const FOCUSED: usize = 0;

pub const ZOOM_MODIFIER: usize = 1;

pub const HORIZONTAL_SCROLL_MODIFIER: usize = 6;

pub const VERTICAL_SCROLL_MODIFIER: usize = 11;

pub const HAS_LATEST_POS: usize = 16;

pub const HAS_INTERACT_POS: usize = 17;

pub const HAS_MOTION: usize = 18;

pub const DOWN: usize = 19;

pub const HAS_PRESS_ORIGIN: usize = 24;

pub const HAS_PRESS_START_TIME: usize = 25;

pub const HAS_MOVED_TOO_MUCH_FOR_A_CLICK: usize = 26;

pub const HAS_LAST_CLICK_POS: usize = 27;

pub const STARTED_DECIDEDLY_DRAGGING: usize = 28;

pub const HAS_LAST_MOVE_TIME: usize = 29;

pub const WHEEL_MODIFIERS: usize = 30;

pub const IS_SMOOTHING: usize = 35;

pub const IS_IN_TOUCH: usize = 36;

pub const IS_WHEEL: usize = 37;

pub const IS_TRACKPAD: usize = 38;

pub const IS_MOMENTUM: usize = 39;

pub const MODIFIERS: usize = 40;

pub const FEED_EMPTY: usize = 45;

pub const FLAGS: usize = 46;

// The words of the set of keys that are down.
pub const KEYS: usize = 4;
