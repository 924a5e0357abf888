// PARK.
ghost use Rattle.std.specs.Prelude.{◌≤◌, length};
ghost use Rattle.panel.specs.View.{shown_by};
ghost use Rattle.trace_machine.specs.Machine.{lent_of};
ghost use Rattle.trace_parking.specs.Calls.{AfterPark, Kept, Parks};

use panel::state::Panel;
use parking::park::ParkRefusal;
use trace_machine::machine::{Machine, Step, kept, refused};
use trace_state::lent::Arrays;
use trace_words::reply;
use trace_words::reply::taken;
use trace_words::request::at;
use trace_words::words::Answer;

// docs/IMAGE.md: the longest image.
pub const IMAGE_PLACES: usize = 4974;

pub type Image = [u32; IMAGE_PLACES];

// 02: a buffer too short.
const SHORT: u32 = 8;

// How many places the request asks for, of those that are lent.
fn places_of(w: &[u32]) -> usize
    ensures { result ≤ 4974 }
{
    IMAGE_PLACES.min(at(w, 0) as usize)
}

// Parked into the first places of a buffer; the others keep their contents.
fn park_in(panel: Panel, lent: &Arrays, out: &mut [u32], room: usize) -> Result<usize, ParkRefusal>
    requires { room ≤ length out.old }
    ensures { Kept (shown_by (lent_of lent.now) panel)
        out.old out.new result }
{
    parking::park::park(
        panel,
        &lent.times,
        &lent.positions,
        &lent.codes,
        &lent.places,
        &lent.presses,
        &mut out[0..room],
    )
}

// The answer has the image's words, which are kept for RESTORE_LAST.
fn parked(m: Machine, image: &Image, a: &mut Answer, done: Result<usize, ParkRefusal>) -> Step
    ensures { AfterPark m result done }
{
    match done {
        Err(ParkRefusal::ShortBuffer) => kept(m, reply::refused(SHORT)),
        Ok(n) => {
            a.all(&image[..n.min(IMAGE_PLACES)]);
            kept(Machine { parked: n, ..m }, taken(a.len()))
        }
    }
}

pub fn park(m: Machine, lent: &Arrays, image: &mut Image, a: &mut Answer, w: &[u32]) -> Step
    ensures { Parks m (lent_of lent.now) image.old image.new result }
{
    if w.len() != 1 {
        return refused(m);
    }
    let room = places_of(w);
    let done = park_in(m.panel, lent, image, room);
    parked(m, image, a, done)
}
