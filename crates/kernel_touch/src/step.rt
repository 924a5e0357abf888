// One record: what it refuses, and what it does.
ghost use Rattle.std.specs.Prelude.{◌≡◌};
ghost use Rattle.kernel_touch.specs.Step.{bad, done, skipped, after, refusal};

use crate::answer::KernelRefusal;
use crate::slots::KernelTouches;
use kernel_record::KernelRecord;
use kernel_values::{position_ok, slot_ok, tracking_id_ok};

#[tactic(auto, unfolding(crate::specs::Step::bad, crate::specs::Step::unless))]
fn bad(r: KernelRecord) -> Result<(), KernelRefusal>
    ensures { result ≡ bad r }
{
    match r {
        KernelRecord::MtSlot(v) if !slot_ok(v) => Err(KernelRefusal::SlotOutside),
        KernelRecord::MtPositionX(v) if !position_ok(v) => Err(KernelRefusal::OutsideDomain),
        KernelRecord::MtPositionY(v) if !position_ok(v) => Err(KernelRefusal::OutsideDomain),
        KernelRecord::MtTrackingId(v) if !tracking_id_ok(v) => Err(KernelRefusal::OutsideDomain),
        _ => Ok(()),
    }
}

impl KernelTouches {
    // A record that is not skipped.
    #[tactic(auto, unfolding(crate::specs::Step::done))]
    fn done(self, r: KernelRecord) -> KernelTouches
        ensures { result ≡ done r self }
    {
        match r {
            KernelRecord::MtSlot(v) => self.choose(v),
            KernelRecord::MtPositionX(v) => self.set_x(v),
            KernelRecord::MtPositionY(v) => self.set_y(v),
            KernelRecord::MtTrackingId(v) => self.set_id(v),
            KernelRecord::ReportEnd => self.settle(),
            KernelRecord::Dropped => self.skip(true),
            KernelRecord::Other => self,
        }
    }

    #[tactic(auto, unfolding(crate::specs::Step::skipped))]
    fn skipped(self, r: KernelRecord) -> KernelTouches
        ensures { result ≡ skipped r self }
    {
        if r.is_end() { self.skip(false) } else { self }
    }

    #[tactic(auto, unfolding(crate::specs::Step::after))]
    pub fn after(self, r: KernelRecord) -> KernelTouches
        ensures { result ≡ after r self }
    {
        if self.skipping {
            self.skipped(r)
        } else {
            self.done(r)
        }
    }

    #[tactic(auto, unfolding(crate::specs::Step::refusal))]
    pub fn refusal(self, r: KernelRecord) -> Result<(), KernelRefusal>
        ensures { result ≡ refusal r self }
    {
        if self.skipping { Ok(()) } else { bad(r) }
    }
}
