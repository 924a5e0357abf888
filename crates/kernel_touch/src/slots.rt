// What goes on from call to call.
ghost use Rattle.std.specs.Prelude.{◌≡◌};
ghost use Rattle.kernel_touch.specs.Slots.{fresh, chosen_finger, put_finger, with_x, with_y, with_id, choose, skips, settled};

use kernel_values::MAX_SLOTS;

// A tracking id, the kernel's -1 for no finger, and the last position.
// Kept (C): `repr(C)` here and below, and no Option: a host keeps the slots from call to call, and C reads them.
#[repr(C)]
#[derive(Clone, Copy, Debug, PartialEq, Eq)]
pub struct Finger {
    pub id: i32,
    pub x: i32,
    pub y: i32,
}

// A slot's finger now, and at the last report end acted on.
#[repr(C)]
#[derive(Clone, Copy, Debug, PartialEq, Eq)]
pub struct Slot {
    pub now: Finger,
    pub acted: Finger,
}

// `skipping`: after 'dropped', through the next report end.
#[repr(C)]
#[derive(Clone, Copy, Debug, PartialEq, Eq)]
pub struct KernelTouches {
    pub slots: [Slot; MAX_SLOTS],
    pub chosen: usize,
    pub skipping: bool,
}

impl KernelTouches {
    #[tactic(auto, unfolding(crate::specs::Slots::fresh, crate::specs::Slots::empty_slots, crate::specs::Slots::no_finger))]
    pub fn fresh() -> KernelTouches
        ensures { result ≡ fresh }
    {
        let finger = Finger { id: -1, x: 0, y: 0 };
        let slot = Slot {
            now: finger,
            acted: finger,
        };
        KernelTouches {
            slots: [slot; MAX_SLOTS],
            chosen: 0,
            skipping: false,
        }
    }

    // The chosen slot's finger; none where there is no such slot.
    #[tactic(auto, using(crate::proofs::SlotList::finger_is, crate::proofs::SlotList::no_finger_is), unfolding(crate::specs::Slots::chosen_finger, crate::specs::Slots::no_finger))]
    fn chosen_finger(self) -> Finger
        ensures { result ≡ chosen_finger self }
    {
        match self.slots.get(self.chosen) {
            Some(slot) => slot.now,
            None => Finger { id: -1, x: 0, y: 0 },
        }
    }

    #[tactic(auto, using(crate::proofs::SlotList::put_is, crate::proofs::SlotList::put_nothing), unfolding(crate::specs::Slots::put_finger))]
    fn put_finger(mut self, finger: Finger) -> KernelTouches
        ensures { result ≡ put_finger finger self }
    {
        // Kept (proof): no `get_mut`: its contract says nothing of the slots afterwards, and the proof does not close.
        let chosen = self.chosen;
        if chosen < MAX_SLOTS {
            self.slots[chosen].now = finger;
        }
        self
    }

    // Kept (plain): each of three writes another field; what they share are the two methods above.
    #[tactic(auto, unfolding(crate::specs::Slots::with_x))]
    pub fn set_x(self, x: i32) -> KernelTouches
        ensures { result ≡ with_x x self }
    {
        self.put_finger(Finger {
            x,
            ..self.chosen_finger()
        })
    }

    // Kept (plain): see `set_x`.
    #[tactic(auto, unfolding(crate::specs::Slots::with_y))]
    pub fn set_y(self, y: i32) -> KernelTouches
        ensures { result ≡ with_y y self }
    {
        self.put_finger(Finger {
            y,
            ..self.chosen_finger()
        })
    }

    // Kept (plain): see `set_x`.
    #[tactic(auto, unfolding(crate::specs::Slots::with_id))]
    pub fn set_id(self, id: i32) -> KernelTouches
        ensures { result ≡ with_id id self }
    {
        self.put_finger(Finger {
            id,
            ..self.chosen_finger()
        })
    }

    #[tactic(auto, unfolding(crate::specs::Slots::choose))]
    pub fn choose(self, v: i32) -> KernelTouches
        ensures { result ≡ choose v self }
    {
        KernelTouches {
            chosen: v.unsigned_abs() as usize,
            ..self
        }
    }

    #[tactic(auto, unfolding(crate::specs::Slots::skips))]
    pub fn skip(self, skipping: bool) -> KernelTouches
        ensures { result ≡ skips skipping self }
    {
        KernelTouches { skipping, ..self }
    }

    // A report end is acted on: each slot's finger is the one of the last report end.
    #[tactic(auto, using(crate::proofs::SlotList::from_first))]
    pub fn settle(mut self) -> KernelTouches
        ensures { result ≡ settled self }
    {
        for slot in self.slots.iter_mut() {
            let now = slot.now;
            *slot = Slot { now, acted: now };
        }
        self
    }
}
