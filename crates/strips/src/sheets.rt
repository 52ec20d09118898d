// Sheets: a generator and a strip to run over it.
ghost use Rattle.strips.specs.Sheets.{SheetOf};

use crate::runs::{refuse, run};
use crate::stops::{Report, Stop};
use crate::strip::Strip;
use layers::{EveryOther, Pair};
use snow::{Register, Snow2, Snow3g};

// Runs the strip behind the first word of `input` over the generator that this word names, and writes the replies at the front of a buffer.
pub fn answer_sheet(input: &[u8], replies: &mut [u8]) -> Report
    ensures { SheetOf input.now replies.old result replies.new }
{
    if replies.len() < 4 {
        return Report::without_room();
    }
    let sheet = match Strip::new(input) {
        Ok(sheet) => sheet,
        Err(stop) => return refuse(stop, replies),
    };
    if input.is_empty() {
        return refuse(Stop::CutShort, replies);
    }
    let strip = &input[4..];
    // Kept as words: they are the format's, and each arm is an instance at another type.
    match sheet.word(0) {
        0x9000_0000 => run(Snow2::new(), strip, replies),
        0x9000_0001 => run(Snow3g::new(), strip, replies),
        0x9000_0002 => run(Register::new(), strip, replies),
        0x9000_0003 => run(Pair::new(Snow2::new(), Snow3g::new()), strip, replies),
        0x9000_0004 => run(EveryOther::new(Snow2::new()), strip, replies),
        _ => refuse(Stop::UnknownGenerator, replies),
    }
}
