//! How much of a list is shown.
ghost use Rattle.std.specs.Prelude.{◌≡◌, true, false};
ghost use Rattle.script_runs.specs.Quotas.{GoesOn, HasRoom, IsFull, IsQuotaAfter};

/// At most so many items of a list are shown, and those after them are counted.
#[derive(Clone, Copy, Debug, PartialEq, Eq)]
pub struct Quota {
    /// How many more items are shown.
    pub left: u32,
    /// How many items aren't; `u64::MAX` stands for more, too.
    pub omitted: u64,
}

impl Quota {
    /// Before the first item.
    pub fn new(most: u32) -> Quota
        ensures { IsQuotaAfter most 0 result }
    {
        Quota {
            left: most,
            omitted: 0,
        }
    }

    /// Whether the next item is shown.
    pub fn admits(&mut self) -> bool
        ensures after { GoesOn self.old self.new }
        ensures shown { result ≡ true → HasRoom self.old }
        ensures omitted { result ≡ false → IsFull self.old }
    {
        if self.left == 0 {
            self.omitted = self.omitted.saturating_add(1);
            return false;
        }
        self.left -= 1;
        true
    }
}
