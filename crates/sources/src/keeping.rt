// What is done to a memo. What only looks goes by the functions over entries, which ask less than a memo is.
ghost use Rattle.std.specs.Prelude.{◌≡◌, ◌+◌, ◌-◌, ◌^◌, min, length, slice_set};
ghost use Rattle.sources.specs.Memos.{slot, kept, remembered, recalled, Unused};
ghost use Rattle.sources.specs.Carried.{Carried};

use crate::entry::{Entry, is_remembered, recall, slot_of, wipe};
use crate::memo::Memo;
use crate::spot::Spot;

impl Memo<'_> {
    // Whether something was kept for three references, and is still there.
    pub fn is_remembered(&self, at: Spot) -> bool
        ensures { result ≡ remembered self.now.entries.now self.now.stamp at }
    {
        is_remembered(self.entries, self.stamp, at)
    }

    // What was found at three references, if it is still there.
    pub fn recall(&self, at: Spot) -> Option<u32>
        ensures { result ≡ recalled self.now.entries.now self.now.stamp at }
    {
        recall(self.entries, self.stamp, at)
    }

    // One more visit, as far as they can be counted.
    pub fn count_visit(&mut self)
        ensures counted { self.new.visits ≡ min (self.old.visits + 1) (2 ^ 64 - 1) }
        ensures same { self.new.entries ≡ self.old.entries }
        ensures carried { Carried self.old self.new }
    {
        self.visits = self.visits.saturating_add(1);
    }

    pub fn remember(&mut self, at: Spot, res: u32)
        ensures written { self.new.entries.now ≡ slice_set self.old.entries.now (slot at (length self.old.entries.now)) (kept self.old.stamp at res) }
        ensures carried { Carried self.old self.new }
    {
        let entry = Entry {
            stamp: self.stamp,
            spot: at,
            result: res,
        };
        let j = slot_of(at, self.entries.len());
        self.entries[j] = entry;
    }

    // Takes a stamp under which no entry was made.
    pub fn renew(&mut self)
        ensures unused { Unused self.new.entries.now self.new.stamp }
        ensures lent { self.new.entries.ghost_name ≡ self.old.entries.ghost_name }
    {
        if self.stamp == u32::MAX {
            wipe(self.entries);
            self.stamp = 0;
        }
        self.stamp += 1;
    }
}
