// The calls that a trace may hold, by compare/FORMAT.md's numbers.
ghost use Rattle.std.specs.Prelude.{◌≡◌};
ghost use Rattle.trace_words.specs.Calls.{call_of};

#[derive(Clone, Copy, PartialEq, Eq)]
pub enum Call {
    Reset,
    Pass,
    Insert,
    ClearWidgets,
    Interact,
    Ask,
    Dump,
    SetTally,
    Kernel,
    Rested,
    Exp,
    Park,
    RestoreLast,
    Restore,
}

// The number of no call.
#[derive(Clone, Copy, PartialEq, Eq)]
pub struct NoSuchCall;

impl TryFrom<u32> for Call {
    type Error = NoSuchCall;

    ghost try_from_gives = { λ number r. r ≡ call_of number };

    #[tactic(auto, unfolding(crate::specs::Calls::call_of))]
    fn try_from(number: u32) -> Result<Call, NoSuchCall> {
        match number {
            0 => Ok(Call::Reset),
            1 => Ok(Call::Pass),
            2 => Ok(Call::Insert),
            3 => Ok(Call::ClearWidgets),
            4 => Ok(Call::Interact),
            5 => Ok(Call::Ask),
            6 => Ok(Call::Dump),
            8 => Ok(Call::SetTally),
            9 => Ok(Call::Kernel),
            10 => Ok(Call::Rested),
            11 => Ok(Call::Exp),
            12 => Ok(Call::Park),
            13 => Ok(Call::RestoreLast),
            14 => Ok(Call::Restore),
            _ => Err(NoSuchCall),
        }
    }
}
