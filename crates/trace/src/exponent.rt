// EXP: the factor of an exponent.
use panel::zoom::zoom_factor;
use trace_words::reply::{Reply, malformed, refused, taken};
use trace_words::request::float;
use trace_words::words::Answer;

pub fn exponent(a: &mut Answer, w: &[u32]) -> Reply {
    if w.len() != 1 {
        return malformed();
    }
    match zoom_factor(float(w, 0)) {
        Ok(factor) => {
            a.float(factor);
            taken(a.len())
        }
        Err(why) => refused(why.number()),
    }
}
