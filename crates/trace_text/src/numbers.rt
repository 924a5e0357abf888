// Answers that are numbers, in plain text.
use std::fmt;
use std::fmt::Write;
use trace_events::fields::Float;
use trace_output::output::Output;
use trace_words::request::at;

// RESTED: the seconds since the last movement, or none before any.
pub fn rested(out: &mut Output, a: &[u32]) -> fmt::Result {
    if at(a, 0) == 0 {
        return out.write_str("none");
    }
    write!(out, "{} s", Float(at(a, 1)))
}

// EXP: the factor, and the exponent that it is of.
pub fn factor(out: &mut Output, a: &[u32], w: &[u32]) -> fmt::Result {
    write!(out, "factor {} of {}", Float(at(a, 0)), Float(at(w, 0)))
}
