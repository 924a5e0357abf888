// The factor of a zoom exponent (02 A.5).
// Kept (C): C reads the number of a refusal beside the factor.
ghost use Rattle.host.specs.Factor.{Factors};

use zoom_factor::zoom_factor;

// `number` 0, and the factor; or 02's number of the refusal, and 0.
#[repr(C)]
#[derive(Clone, Copy)]
pub struct HostFactor {
    pub factor: f32,
    pub number: u32,
}

// Of an exponent of size at most 1; a greater one is the host's to split: e^(a + b) = e^a · e^b.
#[unsafe(no_mangle)]
pub extern "C" fn fivvarul_zoom_factor(exponent: f32) -> HostFactor
    ensures { Factors exponent result }
{
    match zoom_factor(exponent) {
        Ok(factor) => HostFactor { factor, number: 0 },
        Err(q) => HostFactor {
            factor: 0.0,
            number: q.number(),
        },
    }
}
