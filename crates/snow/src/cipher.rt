// SNOW 2.0 and SNOW 3G: the register, and a machine beside it. Kept with `state_of` in each clause: of the list that a `Model` shows the law `valid`
// would know no length.
ghost use Rattle.std.specs.Prelude.{◌≡◌, ◌+◌, ◌++◌, replicate};
ghost use Rattle.generator.specs.Meaning.{times};
ghost use Rattle.snow.specs.Refusals.{Filled};
ghost use Rattle.snow.specs.Cipher.{clocked, feed, unclocked, unfeed, started, rewound, cipher};
ghost use Rattle.snow.specs.Loading.{with_iv};
ghost use Rattle.generator.proofs.States.{joined_state};
ghost use Rattle.snow.specs.CipherLaws.{cipher_lawful};
ghost use Rattle.snow.specs.RegisterLaws.{register_fits};
ghost use Rattle.snow.specs.States.{state_of};

use crate::bytes::numbered_words;
use crate::loading::{expand, name, with_iv};
use crate::machines::Machine;
use crate::refusals::FillFault;
use crate::register::Register;
use generator::{Fault, Generator, OriginFault, have_room};

#[derive(Clone, Copy)]
pub struct Snow<M> {
    pub(crate) register: Register,
    pub(crate) machine: M,
}

impl<M: Machine> Snow<M> {
    // Zero words.
    pub fn new() -> Snow<M>
        ensures { state_of M.words result ≡ replicate (16 + M.machine.size) 0 }
    {
        Snow {
            register: Register::new(),
            machine: M::new(),
        }
    }

    // Takes the words of a list: those of the register, and then the machine's.
    pub fn fill(&mut self, words: &[u32]) -> Result<(), FillFault>
        ensures { Filled (16 + M.machine.size) words.now (state_of M.words self.old) result (state_of M.words self.new) }
    {
        let Some((register, machine)) = words.split_at_checked(16) else {
            return Err(FillFault::WrongCount);
        };
        self.machine = M::of(machine)?;
        self.register.fill(register)
    }

    // A step that shifts `new` in.
    fn clock(&mut self, new: u32)
        ensures { state_of M.words self.new ≡ clocked M.machine (state_of M.words self.old) new }
    {
        self.machine.clock(self.register.words[5]);
        self.register.shift_in(new);
    }

    // A step of a load, which joins what the machine gives to what is shifted in.
    pub fn feed(&mut self)
        ensures { state_of M.words self.new ≡ feed M.machine (state_of M.words self.old) }
    {
        let new = self.register.feedback() ^ self.machine.output(self.register.words[15]);
        self.clock(new);
    }

    // Back over a step that joined `fed` to what it shifted in.
    fn unclock(&mut self, fed: u32)
        ensures { state_of M.words self.new ≡ unclocked M.machine (state_of M.words self.old) fed }
    {
        self.machine.unclock(self.register.words[4]);
        self.register.shift_out(fed);
    }

    // Back over a step of a load.
    pub fn unfeed(&mut self)
        ensures { state_of M.words self.new ≡ unfeed M.machine (state_of M.words self.old) }
    {
        self.machine.unclock(self.register.words[4]);
        let fed = self.machine.output(self.register.words[14]);
        self.register.shift_out(fed);
    }

    // The steps of a load before its last.
    fn warm_up(&mut self)
        ensures { state_of M.words self.new ≡ times 32 (feed M.machine) (state_of M.words self.old) }
    {
        for _ in 0..32u32 {
            self.feed();
        }
    }

    // The steps of a load, from an expanded key and an IV, beside a machine of zero words.
    fn start(&mut self, expanded: &[u32; 16], iv: &[u32; 4])
        ensures { state_of M.words self.new ≡ started M.machine (with_iv expanded.now iv.now ++ replicate M.machine.size 0) }
    {
        self.machine = M::new();
        self.register.words = with_iv(expanded, iv);
        self.warm_up();
        self.forward();
    }

    // Back over the steps of a load.
    fn rewind(&mut self)
        ensures { state_of M.words self.new ≡ rewound M.machine (state_of M.words self.old) }
    {
        self.unclock(0);
        for _ in 0..32u32 {
            self.unfeed();
        }
    }
}

impl<M: Machine> Generator for Snow<M> {
    ghost meaning = { cipher M.machine };

    ghost state = { λ x. x.register.words ++ M.words x.machine };

    ghost lawful = { cipher_lawful M.machine M.Machine.sound };

    ghost valid = { λ x. joined_state 16 M.machine.size (register_fits x.register.words x.register.count x.register.fits) (M.Machine.fits x.machine) };

    // The key's length is tested first.
    fn load(&mut self, key: &[u8], iv: &[u8]) -> Result<(), Fault> {
        self.clear();
        if !M::takes(key.len()) {
            return Err(Fault::Key(0));
        }
        if iv.len() != 16 {
            return Err(Fault::Iv(0));
        }
        let expanded = match key.len() {
            16 => expand::<4>(&numbered_words(key)),
            _ => expand::<8>(&numbered_words(key)),
        };
        self.start(&expanded, &numbered_words(iv));
        Ok(())
    }

    fn forward(&mut self) {
        let new = self.register.feedback();
        self.clock(new);
    }

    fn backward(&mut self) {
        self.unclock(0);
    }

    fn word(&mut self) -> u32 {
        self.machine.output(self.register.words[15]) ^ self.register.words[0]
    }

    fn clear(&mut self) {
        *self = Snow::new();
    }

    fn origin(&mut self, key: &mut [u8], iv: &mut [u8]) -> Result<(usize, usize), OriginFault> {
        if !have_room(key, iv) {
            return Err(OriginFault::ShortBuffer);
        }
        let mut start = *self;
        start.rewind();
        if !start.machine.is_zero() {
            return Err(OriginFault::NoOrigin);
        }
        let words = start.register.words;
        if let Some(lengths) = name::<8>(&words, key, iv) {
            return Ok(lengths);
        }
        if !M::takes(16) {
            return Err(OriginFault::NoOrigin);
        }
        name::<4>(&words, key, iv).ok_or(OriginFault::NoOrigin)
    }
}
