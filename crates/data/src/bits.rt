// One bit as a number.
ghost use Rattle.std.specs.Prelude.{◌≡◌, ◌≤◌};
ghost use Rattle.data.specs.Bits.{bit_number};

pub fn bit_number(b: bool) -> u32
    ensures { (result ≡ bit_number b) × (result ≤ 1) }
{
    u32::from(b)
}
