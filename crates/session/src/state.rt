ghost use Rattle.std.specs.Prelude.{◌≡◌};
ghost use Rattle.generator.specs.Meaning.{zeros};

use crate::openings::Opening;
use generator::Generator;
use std::marker::Model;

// A generator, and the opening that lasts.
pub struct Session<G: Generator> {
    pub(crate) generator: G,
    pub(crate) opening: Option<Opening>,
}

// The generator's state, and the position and the limit of the opening.
impl<G: Generator> Model for Session<G> {
    ghost use Rattle.session.specs.View.{View, seen};

    ghost Value = { View };

    ghost view = { λ s. seen (G.Generator.state s.generator) s.opening };
}

impl<G: Generator> Session<G> {
    // The generator, cleared.
    pub fn into_generator(self) -> G
        ensures { G.Generator.state result ≡ zeros G.Generator.meaning }
    {
        let Session {
            mut generator,
            opening: _,
        } = self;
        generator.clear();
        generator
    }
}

// A session that is let go leaves no state behind.
impl<G: Generator + Drop> Drop for Session<G> {
    fn drop(self) {
        let _cleared = self.into_generator();
    }
}
