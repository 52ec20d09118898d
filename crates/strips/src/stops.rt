// Why a run stopped, and what it reports.
ghost use Rattle.std.specs.Prelude.{◌≡◌, Some};
ghost use Rattle.strips.specs.declared.stops.Stop.TheVariants.{NoRoom};
ghost use Rattle.strips.specs.Runs.{report_of, start};
ghost use Rattle.strips.specs.Stops.{stop_number, outcome_number};

// Why a run of a strip stopped before its end.
#[derive(Clone, Copy, PartialEq, Eq, Debug)]
pub enum Stop {
    // the strip is not whole words, or too long
    BadLength,
    // no word is left, or an order's body is cut short
    CutShort,
    // an unknown kind, a bit set that has to be 0, or filling that is not zero
    BadWord,
    // too few reply bytes are left
    NoRoom,
    // the first word of a sheet names no generator
    UnknownGenerator,
}

impl Stop {
    // The number of this refusal.
    pub fn number(self) -> u8
        ensures { result ≡ stop_number self }
    {
        match self {
            Stop::BadLength => 14,
            Stop::CutShort => 15,
            Stop::BadWord => 16,
            Stop::NoRoom => 17,
            Stop::UnknownGenerator => 18,
        }
    }
}

// What a run came to.
#[derive(Clone, Copy, Default, PartialEq, Eq, Debug)]
pub struct Report {
    // why the run stopped; none where it came to its end
    pub stopped: Option<Stop>,
    // the words of the orders that were finished: accepted, the end too, or refused by the session
    pub words: usize,
    // the reply bytes written
    pub bytes: usize,
    // the orders that the session refused
    pub refused: usize,
}

impl Report {
    // No room for a reply, and nothing done.
    pub(crate) fn without_room() -> Report
        ensures { result ≡ report_of (Some NoRoom) start }
    {
        Report {
            stopped: Some(Stop::NoRoom),
            ..Report::default()
        }
    }

    // The number of the stop, and 0 at the end.
    pub fn number(&self) -> u8
        ensures { result ≡ outcome_number self.now.stopped }
    {
        self.stopped.map_or(0, Stop::number)
    }
}
