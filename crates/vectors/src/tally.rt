// What was compared and what differs.
use std::ops::AddAssign;

#[derive(Clone, Copy, Default)]
pub(crate) struct Tally {
    pub(crate) compared: u32,
    pub(crate) differing: u32,
}

impl Tally {
    // One comparison more.
    pub(crate) fn count(&mut self, agrees: bool) {
        *self += Tally {
            compared: 1,
            differing: u32::from(!agrees),
        };
    }
}

impl AddAssign for Tally {
    fn add_assign(&mut self, other: Tally) {
        self.compared = self.compared.saturating_add(other.compared);
        self.differing = self.differing.saturating_add(other.differing);
    }
}
