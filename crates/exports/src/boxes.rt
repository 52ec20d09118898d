// Tables and word boxes. Kept as matches on numbers: C hands them in.
ghost use Rattle.std.specs.Prelude.{◌≡◌};
ghost use Rattle.exports.specs.Answers.{table_entry, word_through};

use fields::{S1, S2, WordBox};

// The entry of a table at a byte.
#[unsafe(no_mangle)]
pub extern "C" fn jorumdell_table(table: u32, byte: u8) -> u32
    ensures { result ≡ table_entry table byte }
{
    match table {
        0 => u32::from(S1::box_byte(byte)),
        1 => u32::from(S2::box_byte(byte)),
        2 => fields::mul_alpha_entry(byte),
        3 => fields::div_alpha_entry(byte),
        4 => S1::share(byte),
        5 => S2::share(byte),
        6 => u32::from(S1::unbox_byte(byte)),
        7 => u32::from(S2::unbox_byte(byte)),
        _ => 0,
    }
}

// A word through a box, or multiplied.
#[unsafe(no_mangle)]
pub extern "C" fn jorumdell_box(which: u32, word: u32) -> u32
    ensures { result ≡ word_through which word }
{
    match which {
        0 => S1::apply(word),
        1 => S2::apply(word),
        2 => S1::undo(word),
        3 => S2::undo(word),
        4 => fields::times_alpha(word),
        5 => fields::over_alpha(word),
        _ => 0,
    }
}
