// Generators made from the words of a state. Kept as an `impl` for each, though two read alike: one over all would want a trait for their `new` and
// `fill`, with an `impl` for each again.
ghost use Rattle.std.specs.Prelude.{◌≡◌, length, MatchResult, ◌≢◌};
ghost use Rattle.snow.specs.declared.refusals.FillFault.TheVariants.{WrongCount};

use generator::Generator;
use layers::{EveryOther, Pair};
use snow::{FillFault, Machine, Register, Snow, Snow2, Snow3g};

pub(crate) trait Filled: Generator + Drop {
    // The generator whose state has these words.
    fn filled(words: &[u32]) -> Result<Self, FillFault>
        ensures { MatchResult result (λ g. (length words.now ≡ Self.meaning.size) × (Self.state g ≡ words.now)) (λ e. (length words.now ≢ Self.meaning.size) × (e ≡ WrongCount)) };
}

impl Filled for Register {
    fn filled(words: &[u32]) -> Result<Register, FillFault> {
        let mut register = Register::new();
        register.fill(words)?;
        Ok(register)
    }
}

impl<M: Machine> Filled for Snow<M> {
    fn filled(words: &[u32]) -> Result<Snow<M>, FillFault> {
        let mut cipher = Snow::new();
        cipher.fill(words)?;
        Ok(cipher)
    }
}

impl Filled for Pair<Snow2, Snow3g> {
    // The first's eighteen words, and then the second's nineteen. Inlined, since a pair is long: handed over in memory, it costs a short call a
    // quarter of its time.
    #[inline(always)]
    fn filled(words: &[u32]) -> Result<Pair<Snow2, Snow3g>, FillFault> {
        let Some((first, second)) = words.split_at_checked(18) else {
            return Err(FillFault::WrongCount);
        };
        Ok(Pair::new(Filled::filled(first)?, Filled::filled(second)?))
    }
}

impl<G: Filled> Filled for EveryOther<G> {
    fn filled(words: &[u32]) -> Result<EveryOther<G>, FillFault> {
        Ok(EveryOther::new(G::filled(words)?))
    }
}
