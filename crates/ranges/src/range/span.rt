// The width of a range.
ghost use Rattle.std.specs.Prelude.{◌≡◌, pos, ◌+ℤ◌};

use crate::range::Range;

impl Range {
    // How far the high end lies above the low one.
    pub fn span(self) -> u64
        ensures { self.ends.low +ℤ pos result ≡ self.ends.high }
    {
        self.ends.high.abs_diff(self.ends.low)
    }
}
