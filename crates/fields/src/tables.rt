// Tables of 256 entries.
ghost use Rattle.std.specs.Prelude.{◌≡◌, ℕ};
ghost use Rattle.fields.specs.Tables.{Follows};

// The entry at a byte: whatever rule the whole table follows, its entry follows.
pub(crate) fn entry<T: Copy>(table: &[T; 256], place: u8) -> T
    ensures { (rule : ℕ → T) → Follows rule table.now → result ≡ rule place }
{
    table[place as usize]
}
