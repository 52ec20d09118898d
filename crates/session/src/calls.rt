// The calls of a session.
ghost use Rattle.std.specs.Prelude.{◌≡◌, length, replicate};
ghost use Rattle.session.specs.View.{shut, Bounded};
ghost use Rattle.session.specs.Calls.{Opened, Applied, Skipped, SteppedBack, PositionOf, OriginOf, Closed};

use crate::join::join_all;
use crate::openings::Opening;
use crate::refusals::Refusal;
use crate::state::Session;
use crate::steps::origin_before;
use crate::wiped::Wiped;
use generator::Generator;

impl<G: Generator> Session<G> {
    // A closed session.
    pub fn new(mut generator: G) -> Session<G>
        ensures { result ≡ shut G.Generator.meaning }
    {
        generator.clear();
        Session {
            generator,
            opening: None,
        }
    }

    // Loads a key and an IV, with a limit in words. The key's buffer holds zeros after every call.
    pub fn open(&mut self, key: &mut [u8], iv: &[u8], limit: u64) -> Result<(), Refusal>
        ensures opened { Opened G.Generator.meaning self.old key.old iv.now limit result self.new }
        ensures wiped { key.new ≡ replicate (length key.old) 0 }
        ensures bounded { Bounded self.old }
    {
        let guard = Wiped { bytes: key };
        if self.opening.is_some() {
            return Err(Refusal::AlreadyOpen);
        }
        let opening = Opening::of_words(limit)?;
        self.generator.load(guard.bytes, iv)?;
        self.opening = Some(opening);
        Ok(())
    }

    // Joins `count` bytes of a buffer from `start` on with the keystream.
    pub fn apply_keystream(
        &mut self,
        buffer: &mut [u8],
        start: usize,
        count: usize,
    ) -> Result<(), Refusal>
        ensures applied { Applied G.Generator.meaning self.old start count buffer.old result self.new buffer.new }
        ensures bounded { Bounded self.old }
    {
        let here = self.opening.ok_or(Refusal::NotOpen)?;
        let len = buffer.len();
        if start > len || count > len - start {
            return Err(Refusal::PastBuffer);
        }
        let there = here.forward(count as u64)?;
        let window = &mut buffer[start..start + count];
        join_all(&mut self.generator, here.position(), window);
        self.opening = Some(there);
        Ok(())
    }

    // Goes on by n bytes, joining nothing.
    pub fn skip(&mut self, n: u64) -> Result<(), Refusal>
        ensures skipped { Skipped G.Generator.meaning self.old n result self.new }
        ensures bounded { Bounded self.old }
    {
        let here = self.opening.ok_or(Refusal::NotOpen)?;
        let there = here.forward(n)?;
        let words = there.position() / 4 - here.position() / 4;
        self.generator.forward_by(words);
        self.opening = Some(there);
        Ok(())
    }

    // Goes back by n bytes. Kept beside skip: which way the opening and the generator go would be two closures.
    pub fn step_back(&mut self, n: u64) -> Result<(), Refusal>
        ensures stepped { SteppedBack G.Generator.meaning self.old n result self.new }
        ensures bounded { Bounded self.old }
    {
        let here = self.opening.ok_or(Refusal::NotOpen)?;
        let there = here.back(n)?;
        let words = here.position() / 4 - there.position() / 4;
        self.generator.backward_by(words);
        self.opening = Some(there);
        Ok(())
    }

    // The bytes from the opening to here.
    pub fn position(&self) -> Result<u64, Refusal>
        ensures placed { PositionOf self.now result }
        ensures bounded { Bounded self.now }
    {
        let here = self.opening.ok_or(Refusal::NotOpen)?;
        Ok(here.position())
    }

    // The key and the IV of the opening, at the front of the two buffers, and their lengths.
    pub fn origin(&mut self, key: &mut [u8], iv: &mut [u8]) -> Result<(usize, usize), Refusal>
        ensures named { OriginOf G.Generator.meaning self.old key.old iv.old result key.new iv.new }
        ensures same { self.new ≡ self.old }
        ensures bounded { Bounded self.old }
    {
        let here = self.opening.ok_or(Refusal::NotOpen)?;
        let words = here.position() / 4;
        Ok(origin_before(&mut self.generator, words, key, iv)?)
    }

    // Clears the generator.
    pub fn close(&mut self) -> Result<(), Refusal>
        ensures closed { Closed G.Generator.meaning self.old result self.new }
        ensures bounded { Bounded self.old }
    {
        self.opening.ok_or(Refusal::NotOpen)?;
        self.generator.clear();
        self.opening = None;
        Ok(())
    }
}
