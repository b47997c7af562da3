// A list that is lent with its hash index, and with room for more. Each counted thing stands in it once, where the index leads.
ghost use Rattle.std.specs.Prelude.{◌≡◌, ◌<◌, ◌≤◌, ◌^◌, length};
ghost use Rattle.listing.specs.Hashing.{Indexed};

use reduction::interned::Interned;

#[derive(Drop)]
pub struct Listed<'a, X: Interned> {
    pub items: &'a mut [X],
    // Beside the items, since lent room has a fixed length.
    pub count: usize,
    // Of the index, numbers with 0 for none: callers lend lists of numbers, with anything in them.
    pub heads: &'a mut [u32],
    pub next: &'a mut [u32],
    pub ghost indexed: { Indexed X.Interned.equal X.Interned.digested X.Interned.blank items.now count heads.now next.now },
}

impl<'a, X: Interned> Listed<'a, X> {
    ghost use Rattle.listing.specs.Listing.{Stays};

    // An index of nothing, with room for as many things as the list is long. What the heads hold does not matter: a head is tested where it is read.
    pub fn empty(items: &'a mut [X], heads: &'a mut [u32], next: &'a mut [u32]) -> Self
        requires small { length items.now < 2 ^ 32 }
        requires some { 0 < length heads.now }
        requires long { length items.now ≤ length next.now }
        ensures empty { result.count ≡ 0 }
        ensures items { result.items ≡ items.entry }
        ensures heads { result.heads ≡ heads.entry }
        ensures next { result.next ≡ next.entry }
    {
        Listed {
            items,
            count: 0,
            heads,
            next,
        }
    }

    // Empties the list. Its index is not cleared.
    pub fn clear(&mut self)
        ensures empty { self.new.count ≡ 0 }
        ensures stays { Stays self.old self.new }
    {
        self.count = 0;
    }
}
