// Why a generator was not filled.
ghost use Rattle.std.specs.Prelude.{◌≡◌};
ghost use Rattle.snow.specs.Refusals.{fill_number};

#[derive(Clone, Copy, PartialEq, Eq, Debug)]
pub enum FillFault {
    WrongCount,
}

impl FillFault {
    // The number of this refusal.
    pub fn number(self) -> u8
        ensures { result ≡ fill_number self }
    {
        match self {
            FillFault::WrongCount => 12,
        }
    }
}
