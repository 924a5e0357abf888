// What a pass is given beside its feed, and the refusals that it decides alone.
ghost use Rattle.std.specs.Prelude.{◌≡◌, List, ℕ};
ghost use Rattle.model.specs.Pass.{time_or, rect_given_ok, own_numbers_ok, own_refusal};
ghost use Rattle.survey.specs.Survey.{option};
ghost use Rattle.input_state.specs.View.{input};

use data::options::InputOptions;
use data::refusal::PassRefusal;
use domain::{options_ok, rect_ok, scale_ok, time_ok, unit_interval_ok};
use emath::rect::Rect;

// `requested_repaint`: a repaint was requested in the pass before.
#[derive(Clone, Copy)]
pub struct PassInput {
    pub time: Option<f64>,
    pub screen_rect: Option<Rect>,
    pub predicted_dt: f32,
    pub smoothing_factor: f32,
    pub pixels_per_point: f32,
    pub focused: bool,
    pub requested_repaint: bool,
    pub options: InputOptions,
}

// The pass's time: absent, it is the old time and the predicted dt.
pub fn time_of(time: Option<f64>, predicted_dt: f32, old: f64) -> f64
    ensures { result ≡ time_or time predicted_dt old }
{
    time.unwrap_or(old + ieee::widen::widen(predicted_dt))
}

fn rect_given_ok(given: Option<Rect>) -> bool
    ensures { result ≡ rect_given_ok given }
{
    given.is_none_or(rect_ok)
}

fn own_numbers_ok(i: PassInput, time: f64) -> bool
    ensures { (ws : List ℕ) → result ≡ own_numbers_ok (input ws i) time }
{
    let dt = unit_interval_ok(i.predicted_dt);
    let factor = unit_interval_ok(i.smoothing_factor);
    let scale = scale_ok(i.pixels_per_point);
    let rect = rect_given_ok(i.screen_rect);
    let opts = options_ok(i.options);
    time_ok(time) & (dt & (factor & (scale & (rect & opts))))
}

// "Pass: 2 for its own numbers, 3".
pub fn own_refusal(i: PassInput, old: f64) -> Result<(), PassRefusal>
    ensures { (ws : List ℕ) → option result ≡ own_refusal (input ws i) old }
{
    let time = time_of(i.time, i.predicted_dt, old);
    if own_numbers_ok(i, time) {
        if time < old {
            return Err(PassRefusal::TimeBelow);
        }
        return Ok(());
    }
    Err(PassRefusal::OutsideDomain(0))
}
