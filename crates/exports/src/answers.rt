// Answers by numbers. `number` is that of a refusal, and 0 where there is none. Kept as numbers and not as a `Result`: C reads them.
ghost use Rattle.std.specs.Prelude.{◌≡◌};
ghost use Rattle.exports.specs.Answers.{report_numbers, outcome_of, answer_names, part_of};

use crate::faults::CallFault;
use session::Refusal;
use snow::LabelFault;
use strips::Report;
use words::word_at;

// The report of a sheet.
#[repr(C)]
#[derive(Clone, Copy)]
pub struct SheetReport {
    pub number: u64,
    pub words: u64,
    pub bytes: u64,
    pub refused: u64,
}

#[repr(C)]
#[derive(Clone, Copy)]
pub struct Outcome {
    pub number: u64,
    // of a combined generator
    pub member: u64,
}

// The lengths of a key and an IV, 0 after a refusal.
#[repr(C)]
#[derive(Clone, Copy)]
pub struct Names {
    pub number: u64,
    pub key: u64,
    pub iv: u64,
}

// A word of a key or an IV, 0 after a refusal.
#[repr(C)]
#[derive(Clone, Copy)]
pub struct LabelPart {
    pub number: u64,
    pub word: u64,
}

impl From<Report> for SheetReport {
    ghost from_gives = { λ r n. n ≡ report_numbers r };

    fn from(report: Report) -> SheetReport {
        SheetReport {
            number: u64::from(report.number()),
            words: report.words as u64,
            bytes: report.bytes as u64,
            refused: report.refused as u64,
        }
    }
}

impl From<Result<(), Refusal>> for Outcome {
    ghost from_gives = { λ a r. r ≡ outcome_of a };

    fn from(answer: Result<(), Refusal>) -> Outcome {
        match answer {
            Ok(()) => Outcome {
                number: 0,
                member: 0,
            },
            Err(refusal) => Outcome {
                number: u64::from(refusal.number()),
                member: u64::from(refusal.member()),
            },
        }
    }
}

impl From<Result<(usize, usize), CallFault>> for Names {
    ghost from_gives = { λ a r. r ≡ answer_names a };

    fn from(answer: Result<(usize, usize), CallFault>) -> Names {
        match answer {
            Ok((key_len, iv_len)) => Names {
                number: 0,
                key: key_len as u64,
                iv: iv_len as u64,
            },
            Err(fault) => Names {
                number: fault.number(),
                key: 0,
                iv: 0,
            },
        }
    }
}

impl From<Result<&[u8], LabelFault>> for LabelPart {
    ghost from_gives = { λ a r. r ≡ part_of a };

    fn from(answer: Result<&[u8], LabelFault>) -> LabelPart {
        match answer {
            Ok(bytes) => LabelPart {
                number: 0,
                word: u64::from(word_at(bytes, 0)),
            },
            Err(fault) => LabelPart {
                number: u64::from(fault.number()),
                word: 0,
            },
        }
    }
}
