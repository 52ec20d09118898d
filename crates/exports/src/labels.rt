// Labels.
ghost use Rattle.exports.specs.Answers.{LabelBy};

use crate::answers::LabelPart;
use snow::label;

// The word of a label.
#[unsafe(no_mangle)]
pub extern "C" fn jorumdell_label(key: &[u8], iv: &[u8], number: usize, part: &mut LabelPart)
    ensures { LabelBy key.now iv.now number part.new }
{
    *part = LabelPart::from(label(key, iv, number));
}
