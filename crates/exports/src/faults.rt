// Why a call on the state of a generator was refused.
ghost use Rattle.std.specs.Prelude.{◌≡◌};
ghost use Rattle.exports.specs.declared.faults.CallFault.TheVariants.{Fill, Trace};
ghost use Rattle.exports.specs.Faults.{call_number};

use session::TraceFault;
use snow::FillFault;

#[derive(Clone, Copy, PartialEq, Eq, Debug)]
pub(crate) enum CallFault {
    UnknownGenerator,
    Fill(FillFault),
    Trace(TraceFault),
}

impl CallFault {
    // The number of this refusal; that of an unknown generator is the one of a sheet.
    pub(crate) fn number(self) -> u64
        ensures { result ≡ call_number self }
    {
        match self {
            CallFault::UnknownGenerator => 18,
            CallFault::Fill(fault) => u64::from(fault.number()),
            CallFault::Trace(fault) => u64::from(fault.number()),
        }
    }
}

impl From<FillFault> for CallFault {
    ghost from_gives = { λ f r. r ≡ Fill f };

    fn from(fault: FillFault) -> CallFault {
        CallFault::Fill(fault)
    }
}

impl From<TraceFault> for CallFault {
    ghost from_gives = { λ f r. r ≡ Trace f };

    fn from(fault: TraceFault) -> CallFault {
        CallFault::Trace(fault)
    }
}
