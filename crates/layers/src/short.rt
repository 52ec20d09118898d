ghost use Rattle.std.specs.Prelude.{◌≡◌, ℕ, ◌≤◌, List, take};

use generator::LONGEST;
use std::marker::Model;

// A key or an IV of any generator, seen as the list of them.
#[derive(Drop)]
pub(crate) struct Short {
    bytes: [u8; LONGEST],
    len: usize,
}

impl Model for Short {
    ghost Value = { List ℕ };

    ghost view = { λ s. take s.len s.bytes };

    ghost invariant = { λ s. s.len ≤ 255 };
}

impl Short {
    pub(crate) fn new(bytes: [u8; LONGEST], len: usize) -> Short
        requires { len ≤ 255 }
        ensures { result ≡ take len bytes }
    {
        Short { bytes, len }
    }

    pub(crate) fn as_slice(&self) -> &[u8]
        ensures { result.now ≡ self.now }
    {
        &self.bytes[..self.len]
    }
}
