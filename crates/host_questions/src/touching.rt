// Touches and gestures.
// Kept (C): C calls each question by its own name and lends the arrays one by one: questions alike in their steps stand apart.
ghost use Rattle.host_answers.specs.Answers.{gesture_of};
ghost use Rattle.host_input.specs.Held.{clock_of, pointer_of, screen_of};
ghost use Rattle.host_input.specs.Places as at;
ghost use Rattle.host_questions.specs.Shown.{Shown};
ghost use Rattle.host_touch.specs.All.{known_of};
ghost use Rattle.model.specs.Questions as ask;
ghost use Rattle.model.specs.Questions.{bool, gesture, settled};
ghost use Rattle.panel.specs.Answers.{OfDevices, OfLongTouch};
ghost use Rattle.std.specs.Prelude.{get_or};

use data::limits::MAX_DEVICES;
use host_answers::HostGesture;
use host_input::places::{COUNTS, DEVICES, FLAGS, FLOATS, SECONDS};
use host_touch::{FLAGS as DEVICE_FLAGS, FLOATS as DEVICE_FLOATS, IDS};

#[unsafe(no_mangle)]
pub extern "C" fn fivvarul_any_touches(
    counts: &[usize; COUNTS],
    ids0: &[u64; IDS],
    floats0: &[f32; DEVICE_FLOATS],
    flags0: &[bool; DEVICE_FLAGS],
    ids1: &[u64; IDS],
    floats1: &[f32; DEVICE_FLOATS],
    flags1: &[bool; DEVICE_FLAGS],
    ids2: &[u64; IDS],
    floats2: &[f32; DEVICE_FLOATS],
    flags2: &[bool; DEVICE_FLAGS],
    ids3: &[u64; IDS],
    floats3: &[f32; DEVICE_FLOATS],
    flags3: &[bool; DEVICE_FLAGS],
    starts: &[f64; MAX_DEVICES],
) -> bool
    ensures { Shown (known_of (get_or counts.now at.devices 0) starts.now ids0.now floats0.now flags0.now ids1.now floats1.now flags1.now ids2.now floats2.now flags2.now ids3.now floats3.now flags3.now) (λ ds. OfDevices (settled ask.any_touches) ds (bool result)) }
{
    let devices = host_touch::all::devices(
        counts[DEVICES],
        ids0,
        floats0,
        flags0,
        ids1,
        floats1,
        flags1,
        ids2,
        floats2,
        flags2,
        ids3,
        floats3,
        flags3,
        starts,
    );
    panel::touching::any_touches(devices)
}

#[unsafe(no_mangle)]
pub extern "C" fn fivvarul_has_touch_screen(
    counts: &[usize; COUNTS],
    ids0: &[u64; IDS],
    floats0: &[f32; DEVICE_FLOATS],
    flags0: &[bool; DEVICE_FLAGS],
    ids1: &[u64; IDS],
    floats1: &[f32; DEVICE_FLOATS],
    flags1: &[bool; DEVICE_FLAGS],
    ids2: &[u64; IDS],
    floats2: &[f32; DEVICE_FLOATS],
    flags2: &[bool; DEVICE_FLAGS],
    ids3: &[u64; IDS],
    floats3: &[f32; DEVICE_FLOATS],
    flags3: &[bool; DEVICE_FLAGS],
    starts: &[f64; MAX_DEVICES],
) -> bool
    ensures { Shown (known_of (get_or counts.now at.devices 0) starts.now ids0.now floats0.now flags0.now ids1.now floats1.now flags1.now ids2.now floats2.now flags2.now ids3.now floats3.now flags3.now) (λ ds. OfDevices (ask.has_touch_screen) ds (bool result)) }
{
    let devices = host_touch::all::devices(
        counts[DEVICES],
        ids0,
        floats0,
        flags0,
        ids1,
        floats1,
        flags1,
        ids2,
        floats2,
        flags2,
        ids3,
        floats3,
        flags3,
        starts,
    );
    panel::touching::has_touch_screen(devices)
}

#[unsafe(no_mangle)]
pub extern "C" fn fivvarul_multi_touch(
    counts: &[usize; COUNTS],
    ids0: &[u64; IDS],
    floats0: &[f32; DEVICE_FLOATS],
    flags0: &[bool; DEVICE_FLAGS],
    ids1: &[u64; IDS],
    floats1: &[f32; DEVICE_FLOATS],
    flags1: &[bool; DEVICE_FLAGS],
    ids2: &[u64; IDS],
    floats2: &[f32; DEVICE_FLOATS],
    flags2: &[bool; DEVICE_FLAGS],
    ids3: &[u64; IDS],
    floats3: &[f32; DEVICE_FLOATS],
    flags3: &[bool; DEVICE_FLAGS],
    starts: &[f64; MAX_DEVICES],
) -> HostGesture
    ensures { Shown (known_of (get_or counts.now at.devices 0) starts.now ids0.now floats0.now flags0.now ids1.now floats1.now flags1.now ids2.now floats2.now flags2.now ids3.now floats3.now flags3.now) (λ ds. OfDevices (settled ask.multi_touch) ds (gesture (gesture_of result))) }
{
    let devices = host_touch::all::devices(
        counts[DEVICES],
        ids0,
        floats0,
        flags0,
        ids1,
        floats1,
        flags1,
        ids2,
        floats2,
        flags2,
        ids3,
        floats3,
        flags3,
        starts,
    );
    panel::touching::multi_touch(devices).into()
}

#[unsafe(no_mangle)]
pub extern "C" fn fivvarul_info(
    counts: &[usize; COUNTS],
    ids0: &[u64; IDS],
    floats0: &[f32; DEVICE_FLOATS],
    flags0: &[bool; DEVICE_FLAGS],
    ids1: &[u64; IDS],
    floats1: &[f32; DEVICE_FLOATS],
    flags1: &[bool; DEVICE_FLAGS],
    ids2: &[u64; IDS],
    floats2: &[f32; DEVICE_FLOATS],
    flags2: &[bool; DEVICE_FLAGS],
    ids3: &[u64; IDS],
    floats3: &[f32; DEVICE_FLOATS],
    flags3: &[bool; DEVICE_FLAGS],
    starts: &[f64; MAX_DEVICES],
    device_id: u64,
) -> HostGesture
    ensures { Shown (known_of (get_or counts.now at.devices 0) starts.now ids0.now floats0.now flags0.now ids1.now floats1.now flags1.now ids2.now floats2.now flags2.now ids3.now floats3.now flags3.now) (λ ds. OfDevices (settled (ask.info_of_device device_id)) ds (gesture (gesture_of result))) }
{
    let devices = host_touch::all::devices(
        counts[DEVICES],
        ids0,
        floats0,
        flags0,
        ids1,
        floats1,
        flags1,
        ids2,
        floats2,
        flags2,
        ids3,
        floats3,
        flags3,
        starts,
    );
    panel::touching::info(devices, device_id).into()
}

#[unsafe(no_mangle)]
pub extern "C" fn fivvarul_any_touches_of(
    counts: &[usize; COUNTS],
    ids0: &[u64; IDS],
    floats0: &[f32; DEVICE_FLOATS],
    flags0: &[bool; DEVICE_FLAGS],
    ids1: &[u64; IDS],
    floats1: &[f32; DEVICE_FLOATS],
    flags1: &[bool; DEVICE_FLAGS],
    ids2: &[u64; IDS],
    floats2: &[f32; DEVICE_FLOATS],
    flags2: &[bool; DEVICE_FLAGS],
    ids3: &[u64; IDS],
    floats3: &[f32; DEVICE_FLOATS],
    flags3: &[bool; DEVICE_FLAGS],
    starts: &[f64; MAX_DEVICES],
    device_id: u64,
) -> bool
    ensures { Shown (known_of (get_or counts.now at.devices 0) starts.now ids0.now floats0.now flags0.now ids1.now floats1.now flags1.now ids2.now floats2.now flags2.now ids3.now floats3.now flags3.now) (λ ds. OfDevices (settled (ask.any_touches_of_device device_id)) ds (bool result)) }
{
    let devices = host_touch::all::devices(
        counts[DEVICES],
        ids0,
        floats0,
        flags0,
        ids1,
        floats1,
        flags1,
        ids2,
        floats2,
        flags2,
        ids3,
        floats3,
        flags3,
        starts,
    );
    panel::touching::any_touches_of(devices, device_id)
}

#[unsafe(no_mangle)]
pub extern "C" fn fivvarul_is_long_touch(
    seconds: &[f64; SECONDS],
    floats: &[f32; FLOATS],
    counts: &[usize; COUNTS],
    flags: &[bool; FLAGS],
    ids0: &[u64; IDS],
    floats0: &[f32; DEVICE_FLOATS],
    flags0: &[bool; DEVICE_FLAGS],
    ids1: &[u64; IDS],
    floats1: &[f32; DEVICE_FLOATS],
    flags1: &[bool; DEVICE_FLAGS],
    ids2: &[u64; IDS],
    floats2: &[f32; DEVICE_FLOATS],
    flags2: &[bool; DEVICE_FLAGS],
    ids3: &[u64; IDS],
    floats3: &[f32; DEVICE_FLOATS],
    flags3: &[bool; DEVICE_FLAGS],
    starts: &[f64; MAX_DEVICES],
) -> bool
    ensures { Shown (known_of (get_or counts.now at.devices 0) starts.now ids0.now floats0.now flags0.now ids1.now floats1.now flags1.now ids2.now floats2.now flags2.now ids3.now floats3.now flags3.now) (λ ds. OfLongTouch (settled ask.is_long_touch) (clock_of seconds.now floats.now) (screen_of seconds.now floats.now flags.now) (pointer_of seconds.now floats.now counts.now flags.now) ds (bool result)) }
{
    let clock = host_input::read::clock(seconds, floats);
    let screen = host_input::read::screen(seconds, floats, flags);
    let pointer = host_input::read::pointer(seconds, floats, counts, flags);
    let devices = host_touch::all::devices(
        counts[DEVICES],
        ids0,
        floats0,
        flags0,
        ids1,
        floats1,
        flags1,
        ids2,
        floats2,
        flags2,
        ids3,
        floats3,
        flags3,
        starts,
    );
    panel::touching::is_long_touch(clock, screen, pointer, devices)
}
