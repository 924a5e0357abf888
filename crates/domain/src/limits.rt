// 01's limits on floats. data's specs/Limits.antt has the same under the same names.

pub const MAX_COORDINATE: f32 = 65536.0;

pub const MIN_COORDINATE: f32 = -65536.0;

pub const MAX_ZOOM: f32 = 1024.0;

pub const MAX_RADIANS: f32 = 64.0;

pub const MIN_RADIANS: f32 = -64.0;

pub const MAX_SCALE: f32 = 1024.0;

pub const MAX_TIME: f64 = 4294967296.0;

pub const MAX_DURATION: f64 = 3600.0;
