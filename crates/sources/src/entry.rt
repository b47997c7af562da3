// An entry of a memo, and what a list of entries says of three references.
ghost use Rattle.std.specs.Prelude.{◌≡◌, ◌<◌, length};
ghost use Rattle.sources.specs.Memos.{slot, holds, remembered, recalled, Stamped};

use crate::spot::Spot;

#[derive(Clone, Copy, PartialEq, Eq, Debug, Default)]
pub struct Entry {
    pub stamp: u32,
    pub spot: Spot,
    pub result: u32,
}

pub(crate) fn slot_of(at: Spot, places: usize) -> usize
    requires { 0 < places }
    ensures { result ≡ slot at places }
{
    let sum = at.first as u64 * 805306457
        + at.second as u64 * 402653189
        + at.third as u64 * 1610612741;
    (sum % places as u64) as usize
}

fn is_of(entry: Entry, stamp: u32, at: Spot) -> bool
    ensures { result ≡ holds entry stamp at }
{
    entry.stamp == stamp && entry.spot == at
}

// Whether something was kept for three references under a stamp, and is still there.
pub fn is_remembered(entries: &[Entry], stamp: u32, at: Spot) -> bool
    requires { 0 < length entries.now }
    ensures { result ≡ remembered entries.now stamp at }
{
    is_of(entries[slot_of(at, entries.len())], stamp, at)
}

// What was found at three references under a stamp, if it is still there.
pub fn recall(entries: &[Entry], stamp: u32, at: Spot) -> Option<u32>
    requires { 0 < length entries.now }
    ensures { result ≡ recalled entries.now stamp at }
{
    if is_remembered(entries, stamp, at) {
        Some(entries[slot_of(at, entries.len())].result)
    } else {
        None
    }
}

// Makes every entry one of the stamp 0. What else an entry holds stays, so `fill` would not do; and by its place, since after
// an `iter_mut` only the length of a list is known.
pub fn wipe(entries: &mut [Entry])
    ensures { Stamped entries.new 0 }
{
    for j in 0..entries.len() {
        entries[j].stamp = 0;
    }
}
