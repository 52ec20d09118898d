// Why a call was refused, with the number of each refusal.
ghost use Rattle.std.specs.Prelude.{◌≡◌};
ghost use Rattle.session.specs.declared.refusals.Refusal.TheVariants.{Load, Origin};
ghost use Rattle.session.specs.Calls.{as_trace};
ghost use Rattle.session.specs.Refusals.{number, member_of, trace_number};

use generator::{Fault, OriginFault};

// Why a call of a session was refused.
#[derive(Clone, Copy, PartialEq, Eq, Debug)]
pub enum Refusal {
    AlreadyOpen,
    BadLimit,
    Load(Fault),
    NotOpen,
    PastBuffer,
    PastLimit,
    BeforeStart,
    Origin(OriginFault),
}

impl Refusal {
    // The number of this refusal.
    pub fn number(self) -> u8
        ensures { result ≡ number self }
    {
        match self {
            Refusal::AlreadyOpen => 1,
            Refusal::BadLimit => 2,
            Refusal::Load(fault) => fault.number(),
            Refusal::NotOpen => 5,
            Refusal::PastBuffer => 6,
            Refusal::PastLimit => 7,
            Refusal::BeforeStart => 8,
            Refusal::Origin(fault) => fault.number(),
        }
    }

    // The member of a combined generator that found the fault, and 0 where there is none.
    pub fn member(self) -> u8
        ensures { result ≡ member_of self }
    {
        match self {
            Refusal::Load(fault) => fault.member(),
            _ => 0,
        }
    }
}

impl From<Fault> for Refusal {
    ghost from_gives = { λ f r. r ≡ Load f };

    fn from(fault: Fault) -> Refusal {
        Refusal::Load(fault)
    }
}

impl From<OriginFault> for Refusal {
    ghost from_gives = { λ f r. r ≡ Origin f };

    fn from(fault: OriginFault) -> Refusal {
        Refusal::Origin(fault)
    }
}

// Why no key and IV were traced.
#[derive(Clone, Copy, PartialEq, Eq, Debug)]
pub enum TraceFault {
    ShortBuffer,
    TooFar,
    NoOrigin,
}

impl TraceFault {
    // The number of this refusal.
    pub fn number(self) -> u8
        ensures { result ≡ trace_number self }
    {
        match self {
            TraceFault::ShortBuffer => 9,
            TraceFault::TooFar => 11,
            TraceFault::NoOrigin => 10,
        }
    }
}

impl From<OriginFault> for TraceFault {
    ghost from_gives = { λ f r. r ≡ as_trace f };

    fn from(fault: OriginFault) -> TraceFault {
        match fault {
            OriginFault::ShortBuffer => TraceFault::ShortBuffer,
            OriginFault::NoOrigin => TraceFault::NoOrigin,
        }
    }
}
