// The widgets of a layer, as the caller of an insertion keeps them: an array by value, lent to `settle` and taken back.
#![tactic(auto)]

ghost use Rattle.std.specs.Prelude.{◌≡◌, ◌≤◌};
ghost use Rattle.widget_append.specs.Append.{settled};

use data::limits::MAX_WIDGETS;
use data::widget::WidgetRect;
use widget_rect::slice::settle;

// Kept (plain): by value, as its callers keep it: lent, it would be `settle` itself
pub fn settled(
    mut a: [WidgetRect; MAX_WIDGETS],
    from: usize,
    to: usize,
    w: WidgetRect,
) -> [WidgetRect; MAX_WIDGETS]
    requires { to ≤ 1024 }
    ensures { result ≡ settled from to w a }
{
    settle(&mut a, from, to, w);
    a
}
