// Sheets.
ghost use Rattle.exports.specs.Answers.{SheetBy};

use crate::answers::SheetReport;
use strips::answer_sheet;

// Answers a sheet.
#[unsafe(no_mangle)]
pub extern "C" fn jorumdell_sheet(input: &[u8], replies: &mut [u8], report: &mut SheetReport)
    ensures { SheetBy input.now replies.old report.new replies.new }
{
    *report = SheetReport::from(answer_sheet(input, replies));
}
