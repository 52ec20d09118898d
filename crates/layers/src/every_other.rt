ghost use Rattle.std.specs.Prelude.{◌≡◌};
ghost use Rattle.layers.specs.EveryOther.{every_other};
ghost use Rattle.layers.specs.EveryOtherLaws.{every_other_lawful};
ghost use Rattle.std.proofs.Common.{rules};

use generator::{Fault, Generator, OriginFault};

// A generator that steps two words at a time, so that every other word of the one below comes out.
#[derive(Drop)]
pub struct EveryOther<G> {
    generator: G,
}

impl<G> EveryOther<G> {
    pub fn new(generator: G) -> EveryOther<G>
        ensures { result.generator ≡ generator }
    {
        EveryOther { generator }
    }

    // The generator below, in the state that it has.
    pub fn into_inner(self) -> G
        ensures { result ≡ self.generator }
    {
        let EveryOther { generator } = self;
        generator
    }
}

impl<G: Generator> Generator for EveryOther<G> {
    ghost meaning = { every_other G.meaning };

    ghost state = { λ x. G.state x.generator };

    ghost lawful = { every_other_lawful G.meaning G.Generator.lawful };

    ghost valid = { Prim.search rules };

    fn load(&mut self, key: &[u8], iv: &[u8]) -> Result<(), Fault> {
        self.generator.load(key, iv)
    }

    fn forward(&mut self) {
        self.generator.forward();
        self.generator.forward();
    }

    fn backward(&mut self) {
        self.generator.backward();
        self.generator.backward();
    }

    fn word(&mut self) -> u32 {
        self.generator.word()
    }

    fn clear(&mut self) {
        self.generator.clear();
    }

    fn origin(&mut self, key: &mut [u8], iv: &mut [u8]) -> Result<(usize, usize), OriginFault> {
        self.generator.origin(key, iv)
    }
}
