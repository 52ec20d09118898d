// SNOW 3G with 256-bit keys (ETSI/SAGE SNOW 3G 256 v0.3).
ghost use Rattle.std.specs.Prelude.{◌^◌, ◌<◌, [], ◌∷◌, refl};
ghost use Rattle.snow.specs.Snow3g.{snow3g_machine};
ghost use Rattle.snow.specs.Snow3gLaws.{snow3g_sound};

use crate::cipher::Snow;
use crate::machines::Machine;
use crate::refusals::FillFault;
use fields::{S1, S2, WordBox};

// The words s0 to s15 of the register, and R1, R2 and R3 of the machine.
pub type Snow3g = Snow<Snow3gMachine>;

#[derive(Clone, Copy)]
pub struct Snow3gMachine {
    r1: u32,
    r2: u32,
    r3: u32,
    ghost fits_r1: { r1 < 2 ^ 32 },
    ghost fits_r2: { r2 < 2 ^ 32 },
    ghost fits_r3: { r3 < 2 ^ 32 },
}

impl Machine for Snow3gMachine {
    ghost machine = { snow3g_machine };

    ghost words = { λ m. m.r1 ∷ m.r2 ∷ m.r3 ∷ [] };

    ghost sound = { snow3g_sound };

    ghost fits = { λ m. record { count = refl; fits = (m.fits_r1, (m.fits_r2, (m.fits_r3, tt))) } };

    fn takes(key_len: usize) -> bool {
        key_len == 32
    }

    fn new() -> Snow3gMachine {
        Snow3gMachine {
            r1: 0,
            r2: 0,
            r3: 0,
        }
    }

    fn of(list: &[u32]) -> Result<Snow3gMachine, FillFault> {
        match list {
            [r1, r2, r3] => Ok(Snow3gMachine {
                r1: *r1,
                r2: *r2,
                r3: *r3,
            }),
            _ => Err(FillFault::WrongCount),
        }
    }

    fn is_zero(&self) -> bool {
        self.r1 == 0 && self.r2 == 0 && self.r3 == 0
    }

    fn first_two(&self) -> (u32, u32) {
        (self.r1, self.r2)
    }

    fn clock(&mut self, word: u32) {
        let r1 = self.r2.wrapping_add(self.r3 ^ word);
        let r2 = S1::apply(self.r1);
        let r3 = S2::apply(self.r2);
        *self = Snow3gMachine { r1, r2, r3 };
    }

    fn unclock(&mut self, word: u32) {
        let r1 = S1::undo(self.r2);
        let r2 = S2::undo(self.r3);
        let r3 = self.r1.wrapping_sub(r2) ^ word;
        *self = Snow3gMachine { r1, r2, r3 };
    }
}
