// A layer's widgets, in a slice that the caller lends.
ghost use Rattle.std.specs.Prelude.{◌≡◌, ◌+◌, ◌≤◌, length};
ghost use Rattle.widget_append.specs.Append.{settled};

use data::widget::WidgetRect;

// The record at `from` goes, each after it up to `to` falls by one, and `w` comes last of them. With `to` at `from + 1` it replaces one
// record; with `to` at `from` nothing changes. Further places stay.
pub fn settle(s: &mut [WidgetRect], from: usize, to: usize, w: WidgetRect)
    requires { to ≤ length s.old }
    ensures { s.new ≡ settled from to w s.old }
{
    if to <= from {
        return;
    }
    s.copy_within(from + 1..to, from);
    s[to - 1] = w;
}
