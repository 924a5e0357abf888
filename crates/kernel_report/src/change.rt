// How a slot changed since the last report end acted on.
ghost use Rattle.std.specs.Prelude.{◌≡◌};
ghost use Rattle.kernel_report.specs.Report.{moved, replaced, change};

use kernel_touch::slots::{Finger, Slot};
use kernel_values::is_finger;

// Replaced: one finger was lifted and another begun.
#[derive(Clone, Copy, Debug, PartialEq, Eq)]
pub enum Change {
    Still,
    Begun,
    Moved,
    Lifted,
    Replaced,
}

// The same id, then and now.
#[tactic(auto, unfolding(crate::specs::Report::moved, crate::specs::Report::same_place, kernel_values::specs::Value::same_number))]
fn moved(then: Finger, now: Finger) -> Change
    ensures { result ≡ moved then now }
{
    let stays = then.x == now.x && then.y == now.y;
    if is_finger(now.id) && !stays {
        Change::Moved
    } else {
        Change::Still
    }
}

// Another id.
#[tactic(auto, unfolding(crate::specs::Report::replaced))]
fn replaced(then: i32, now: i32) -> Change
    ensures { result ≡ replaced then now }
{
    match (is_finger(then), is_finger(now)) {
        (true, true) => Change::Replaced,
        (true, false) => Change::Lifted,
        (false, true) => Change::Begun,
        (false, false) => Change::Still,
    }
}

// Kept (plain): no From: how a slot changed is one of its properties, and no other form of it.
#[tactic(auto, unfolding(crate::specs::Report::change, kernel_values::specs::Value::same_number))]
pub fn change_of(s: Slot) -> Change
    ensures { result ≡ change s }
{
    if s.acted.id == s.now.id {
        moved(s.acted, s.now)
    } else {
        replaced(s.acted.id, s.now.id)
    }
}
