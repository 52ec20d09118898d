// Doubling of a byte in the field of a tap byte.
ghost use Rattle.std.specs.Prelude.{◌≡◌};
ghost use Rattle.fields.specs.Doubling.{doubled};
ghost use Rattle.fields.specs.Theorems.{DoublingLinear};

// The byte shifted left by one, joined with the tap byte where a bit was shifted out. Doubling is linear.
#[tactic(auto, using(crate::proofs::Fields::doubled_linear), unfolding(crate::specs::Doubling::doubled))]
pub fn double(byte: u8, tap: u8) -> u8
    ensures value { result ≡ doubled tap byte }
    ensures linear { DoublingLinear }
{
    let shifted = byte << 1;
    if byte < 0x80 { shifted } else { shifted ^ tap }
}
