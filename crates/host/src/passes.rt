// A pass.
// Kept (C): a parameter for each array that C lends, so the signature alone is long; the body reads them, makes one call and writes them.
ghost use Rattle.input_state.specs.View.{lent};
ghost use Rattle.host_pass.specs.Memory.{memory, Passes};

use data::limits::MAX_DEVICES;
use emath_history::history::{MAX_LEN, PARTS};
use host_input::places::{COUNTS, DEVICES, FLAGS, FLOATS, KEYS, SECONDS};
use host_pass::{HostPass, HostRefusal, pass_input, refused, taken};
use host_touch::{FLAGS as DEVICE_FLAGS, FLOATS as DEVICE_FLOATS, IDS};
use key_state::keys::PRESSES;
use pointer_events::{CODES, PLACES};

// Refused, with every place as before; or taken.
#[unsafe(no_mangle)]
pub extern "C" fn fivvarul_pass(
    seconds: &mut [f64; SECONDS],
    floats: &mut [f32; FLOATS],
    counts: &mut [usize; COUNTS],
    flags: &mut [bool; FLAGS],
    keys_down: &mut [u64; KEYS],
    ids0: &mut [u64; IDS],
    floats0: &mut [f32; DEVICE_FLOATS],
    flags0: &mut [bool; DEVICE_FLAGS],
    ids1: &mut [u64; IDS],
    floats1: &mut [f32; DEVICE_FLOATS],
    flags1: &mut [bool; DEVICE_FLAGS],
    ids2: &mut [u64; IDS],
    floats2: &mut [f32; DEVICE_FLOATS],
    flags2: &mut [bool; DEVICE_FLAGS],
    ids3: &mut [u64; IDS],
    floats3: &mut [f32; DEVICE_FLOATS],
    flags3: &mut [bool; DEVICE_FLAGS],
    starts: &mut [f64; MAX_DEVICES],
    times: &mut [f64; MAX_LEN],
    positions: &mut [f32; PARTS],
    codes: &mut [u32; CODES],
    places: &mut [f32; PLACES],
    presses: &mut [u8; PRESSES],
    given: HostPass,
    feed: &[u32],
) -> HostRefusal
    ensures { Passes given feed.now
        (lent times.old positions.old codes.old places.old presses.old)
        (memory seconds.old floats.old counts.old flags.old keys_down.old
        ids0.old floats0.old flags0.old ids1.old floats1.old flags1.old ids2.old floats2.old flags2.old ids3.old floats3.old flags3.old starts.old)
        (lent times.new positions.new codes.new places.new presses.new)
        (memory seconds.new floats.new counts.new flags.new keys_down.new
        ids0.new floats0.new flags0.new ids1.new floats1.new flags1.new ids2.new floats2.new flags2.new ids3.new floats3.new flags3.new starts.new) result }
{
    let input = host_input::read::input(seconds, floats, counts, flags, keys_down);
    let devices = host_touch::all::devices(
        counts[DEVICES],
        ids0,
        floats0,
        flags0,
        ids1,
        floats1,
        flags1,
        ids2,
        floats2,
        flags2,
        ids3,
        floats3,
        flags3,
        starts,
    );
    let i = pass_input(given);
    match panel::pass::pass(
        input, devices, times, positions, codes, places, presses, i, feed,
    ) {
        Err(q) => refused(q),
        Ok(begun) => {
            let state = begun.state;
            let after = begun.devices;
            let n = host_touch::all::keep_all(
                after, ids0, floats0, flags0, ids1, floats1, flags1, ids2, floats2, flags2, ids3,
                floats3, flags3, starts,
            );
            *seconds = host_input::kept::seconds(state);
            *floats = host_input::kept::floats(state);
            *counts = host_input::kept::counts(state, n);
            *flags = host_input::kept::flags(state);
            *keys_down = host_input::kept::keys_down(state);
            taken()
        }
    }
}
