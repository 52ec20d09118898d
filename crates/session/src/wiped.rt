ghost use Rattle.std.specs.Prelude.{◌≡◌, length, replicate};

// A key buffer, which holds zeros once this is dropped.
pub(crate) struct Wiped<'a> {
    pub(crate) bytes: &'a mut [u8],
}

impl Drop for Wiped<'_> {
    fn drop(self)
        ensures { self.exit.0.now ≡ replicate (length self.entry.bytes.now) 0 }
    {
        self.bytes.fill(0);
        let Wiped { bytes: _ } = self;
    }
}
