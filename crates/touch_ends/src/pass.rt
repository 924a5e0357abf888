// The devices in a pass.
ghost use Rattle.survey.specs.Survey.{option};
ghost use Rattle.touch_state.specs.View.{view};
ghost use Rattle.touch_ends.specs.Pass.{TouchPassed};

use crate::ends::end_devices;
use data::refusal::PassRefusal;
use emath::pos2::Pos2;
use touch_crowd::crowd::crowd;
use touch_state::devices::Devices;

// The devices after the touch events at some places and the end of the pass, or the first refusal; `later` is what is refused after the events.
// `pointer_pos` is the pointer's interact position of the pass before. With no device and no touch event nothing is done.
pub fn touch_pass(
    ds: Devices,
    feed: &[u32],
    places: &[u16],
    later: Result<(), PassRefusal>,
    time: f64,
    pointer_pos: Option<Pos2>,
) -> Result<Devices, PassRefusal>
    ensures { TouchPassed feed.now places.now (option later) time pointer_pos (view ds) result }
{
    if places.is_empty() {
        if ds.count == 0 {
            later?;
            return Ok(ds);
        }
    }
    let held = crowd(ds, feed, places, later)?;
    Ok(end_devices(held, feed, places, time, pointer_pos))
}
