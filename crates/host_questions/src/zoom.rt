// Zoom, rotation and translation: those of the first device by id that has a gesture, or else the sums of the pass.
// Kept (C): C calls each question by its own name and lends the arrays one by one: questions alike in their steps stand apart.
ghost use Rattle.host_answers.specs.Answers.{rotation_of, vector_of, zoom_2d_of, zoom_of};
ghost use Rattle.host_input.specs.Held.{keys_of, screen_of, sums_of};
ghost use Rattle.host_input.specs.Places as at;
ghost use Rattle.host_questions.specs.Shown.{Shown};
ghost use Rattle.host_touch.specs.All.{known_of};
ghost use Rattle.model.specs.Questions as ask;
ghost use Rattle.model.specs.Questions.{rotation, settled, vector};
ghost use Rattle.panel.specs.Answers.{OfGesture, OfGestureByAxis};
ghost use Rattle.scroll_questions.specs.Answers.{zoom_2d_answer, zoom_answer};
ghost use Rattle.std.specs.Prelude.{get_or};

use data::limits::MAX_DEVICES;
use host_answers::{HostRotation, HostVector, HostZoom, HostZoom2d};
use host_input::places::{COUNTS, DEVICES, FLAGS, FLOATS, KEYS, SECONDS};
use host_touch::{FLAGS as DEVICE_FLAGS, FLOATS as DEVICE_FLOATS, IDS};

#[unsafe(no_mangle)]
pub extern "C" fn fivvarul_zoom_delta(
    floats: &[f32; FLOATS],
    counts: &[usize; COUNTS],
    ids0: &[u64; IDS],
    floats0: &[f32; DEVICE_FLOATS],
    flags0: &[bool; DEVICE_FLAGS],
    ids1: &[u64; IDS],
    floats1: &[f32; DEVICE_FLOATS],
    flags1: &[bool; DEVICE_FLAGS],
    ids2: &[u64; IDS],
    floats2: &[f32; DEVICE_FLOATS],
    flags2: &[bool; DEVICE_FLAGS],
    ids3: &[u64; IDS],
    floats3: &[f32; DEVICE_FLOATS],
    flags3: &[bool; DEVICE_FLAGS],
    starts: &[f64; MAX_DEVICES],
) -> HostZoom
    ensures { Shown (known_of (get_or counts.now at.devices 0) starts.now ids0.now floats0.now flags0.now ids1.now floats1.now flags1.now ids2.now floats2.now flags2.now ids3.now floats3.now flags3.now) (λ ds. OfGesture (settled ask.zoom_delta) ds (sums_of floats.now) (zoom_answer (zoom_of result))) }
{
    let devices = host_touch::all::devices(
        counts[DEVICES],
        ids0,
        floats0,
        flags0,
        ids1,
        floats1,
        flags1,
        ids2,
        floats2,
        flags2,
        ids3,
        floats3,
        flags3,
        starts,
    );
    let sums = host_input::read::sums(floats);
    panel::zoom::zoom_delta(devices, sums).into()
}

#[unsafe(no_mangle)]
pub extern "C" fn fivvarul_zoom_delta_2d(
    seconds: &[f64; SECONDS],
    floats: &[f32; FLOATS],
    counts: &[usize; COUNTS],
    flags: &[bool; FLAGS],
    keys_down: &[u64; KEYS],
    ids0: &[u64; IDS],
    floats0: &[f32; DEVICE_FLOATS],
    flags0: &[bool; DEVICE_FLAGS],
    ids1: &[u64; IDS],
    floats1: &[f32; DEVICE_FLOATS],
    flags1: &[bool; DEVICE_FLAGS],
    ids2: &[u64; IDS],
    floats2: &[f32; DEVICE_FLOATS],
    flags2: &[bool; DEVICE_FLAGS],
    ids3: &[u64; IDS],
    floats3: &[f32; DEVICE_FLOATS],
    flags3: &[bool; DEVICE_FLAGS],
    starts: &[f64; MAX_DEVICES],
) -> HostZoom2d
    ensures { Shown (known_of (get_or counts.now at.devices 0) starts.now ids0.now floats0.now flags0.now ids1.now floats1.now flags1.now ids2.now floats2.now flags2.now ids3.now floats3.now flags3.now) (λ ds. OfGestureByAxis (settled ask.zoom_delta_2d) ds (sums_of floats.now) (keys_of flags.now keys_down.now) (screen_of seconds.now floats.now flags.now) (zoom_2d_answer (zoom_2d_of result))) }
{
    let devices = host_touch::all::devices(
        counts[DEVICES],
        ids0,
        floats0,
        flags0,
        ids1,
        floats1,
        flags1,
        ids2,
        floats2,
        flags2,
        ids3,
        floats3,
        flags3,
        starts,
    );
    let sums = host_input::read::sums(floats);
    let keys = host_input::read::keys(flags, keys_down);
    let screen = host_input::read::screen(seconds, floats, flags);
    panel::zoom::zoom_delta_2d(devices, sums, keys, screen).into()
}

#[unsafe(no_mangle)]
pub extern "C" fn fivvarul_rotation_delta(
    floats: &[f32; FLOATS],
    counts: &[usize; COUNTS],
    ids0: &[u64; IDS],
    floats0: &[f32; DEVICE_FLOATS],
    flags0: &[bool; DEVICE_FLAGS],
    ids1: &[u64; IDS],
    floats1: &[f32; DEVICE_FLOATS],
    flags1: &[bool; DEVICE_FLAGS],
    ids2: &[u64; IDS],
    floats2: &[f32; DEVICE_FLOATS],
    flags2: &[bool; DEVICE_FLAGS],
    ids3: &[u64; IDS],
    floats3: &[f32; DEVICE_FLOATS],
    flags3: &[bool; DEVICE_FLAGS],
    starts: &[f64; MAX_DEVICES],
) -> HostRotation
    ensures { Shown (known_of (get_or counts.now at.devices 0) starts.now ids0.now floats0.now flags0.now ids1.now floats1.now flags1.now ids2.now floats2.now flags2.now ids3.now floats3.now flags3.now) (λ ds. OfGesture (settled ask.rotation_delta) ds (sums_of floats.now) (rotation (rotation_of result))) }
{
    let devices = host_touch::all::devices(
        counts[DEVICES],
        ids0,
        floats0,
        flags0,
        ids1,
        floats1,
        flags1,
        ids2,
        floats2,
        flags2,
        ids3,
        floats3,
        flags3,
        starts,
    );
    let sums = host_input::read::sums(floats);
    panel::zoom::rotation_delta(devices, sums).into()
}

#[unsafe(no_mangle)]
pub extern "C" fn fivvarul_translation_delta(
    floats: &[f32; FLOATS],
    counts: &[usize; COUNTS],
    ids0: &[u64; IDS],
    floats0: &[f32; DEVICE_FLOATS],
    flags0: &[bool; DEVICE_FLAGS],
    ids1: &[u64; IDS],
    floats1: &[f32; DEVICE_FLOATS],
    flags1: &[bool; DEVICE_FLAGS],
    ids2: &[u64; IDS],
    floats2: &[f32; DEVICE_FLOATS],
    flags2: &[bool; DEVICE_FLAGS],
    ids3: &[u64; IDS],
    floats3: &[f32; DEVICE_FLOATS],
    flags3: &[bool; DEVICE_FLAGS],
    starts: &[f64; MAX_DEVICES],
) -> HostVector
    ensures { Shown (known_of (get_or counts.now at.devices 0) starts.now ids0.now floats0.now flags0.now ids1.now floats1.now flags1.now ids2.now floats2.now flags2.now ids3.now floats3.now flags3.now) (λ ds. OfGesture (settled ask.translation_delta) ds (sums_of floats.now) (vector (vector_of result))) }
{
    let devices = host_touch::all::devices(
        counts[DEVICES],
        ids0,
        floats0,
        flags0,
        ids1,
        floats1,
        flags1,
        ids2,
        floats2,
        flags2,
        ids3,
        floats3,
        flags3,
        starts,
    );
    let sums = host_input::read::sums(floats);
    panel::zoom::translation_delta(devices, sums).into()
}
