// SNOW 2.0 (ISO/IEC 18033-4:2005, 7.2).
ghost use Rattle.std.specs.Prelude.{◌≡◌, ◌^◌, ◌<◌, [], ◌∷◌, ◌++◌, refl};
ghost use Rattle.snow.specs.Snow2.{snow2_machine};
ghost use Rattle.snow.specs.Snow2Laws.{snow2_sound};

use crate::cipher::Snow;
use crate::machines::Machine;
use crate::refusals::FillFault;
use fields::{S1, WordBox};

// The words a0 to a15 of the register, and b1 and b2 of the machine.
pub type Snow2 = Snow<Snow2Machine>;

#[derive(Clone, Copy)]
pub struct Snow2Machine {
    b1: u32,
    b2: u32,
    ghost fits_b1: { b1 < 2 ^ 32 },
    ghost fits_b2: { b2 < 2 ^ 32 },
}

impl Machine for Snow2Machine {
    ghost machine = { snow2_machine };

    ghost words = { λ m. m.b1 ∷ m.b2 ∷ [] };

    ghost sound = { snow2_sound };

    ghost fits = { λ m. record { count = refl; fits = (m.fits_b1, (m.fits_b2, tt)) } };

    fn takes(key_len: usize) -> bool {
        key_len == 16 || key_len == 32
    }

    fn new() -> Snow2Machine {
        Snow2Machine { b1: 0, b2: 0 }
    }

    fn of(list: &[u32]) -> Result<Snow2Machine, FillFault> {
        match list {
            [b1, b2] => Ok(Snow2Machine { b1: *b1, b2: *b2 }),
            _ => Err(FillFault::WrongCount),
        }
    }

    fn is_zero(&self) -> bool {
        self.b1 == 0 && self.b2 == 0
    }

    fn first_two(&self) -> (u32, u32) {
        (self.b1, self.b2)
    }

    fn clock(&mut self, word: u32) {
        let b1 = self.b2.wrapping_add(word);
        let b2 = S1::apply(self.b1);
        *self = Snow2Machine { b1, b2 };
    }

    fn unclock(&mut self, word: u32) {
        let b1 = S1::undo(self.b2);
        let b2 = self.b1.wrapping_sub(word);
        *self = Snow2Machine { b1, b2 };
    }
}

impl Snow<Snow2Machine> {
    // The words a0 to a15, b1, b2.
    pub fn words(&self) -> [u32; 18]
        ensures { result ≡ self.now.register.words ++ self.now.machine.b1 ∷ self.now.machine.b2 ∷ [] }
    {
        let mut words = [0; 18];
        words[..16].copy_from_slice(&self.register.words);
        words[16] = self.machine.b1;
        words[17] = self.machine.b2;
        words
    }
}
