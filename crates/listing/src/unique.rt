// The unique table: finding a thing in a list where it stands once, by a hash index.
ghost use Rattle.std.specs.Prelude.{◌≡◌, suc, ◌+◌, ◌%◌, ◌<◌, ◌≤◌, length, take, MatchOption, slice_index, slice_set};
ghost use Rattle.listing.specs.Hashing.{bucket_of, current, cleaned, Indexed, FoundAmong};
ghost use Rattle.reduction.specs.Listed.{index};

use crate::listed::Listed;
use reduction::interned::Interned;

fn bucket<X: Interned>(x: X, buckets: usize) -> usize
    requires { 0 < buckets }
    ensures { result ≡ X.Interned.digested x % buckets }
{
    (x.digest() % buckets as u64) as usize
}

// The place that a number of the index names; 0 names none.
fn place_of(number: u32) -> Option<usize>
    ensures { MatchOption result (number ≡ 0) (λ i. number ≡ suc i) }
{
    number.checked_sub(1).map(|i| i as usize)
}

// Whether a number of the index names a counted thing of a bucket.
fn is_current<X: Interned>(items: &[X], count: usize, buckets: usize, b: usize, head: u32) -> bool
    requires some { 0 < buckets }
    requires counted { count ≤ length items.now }
    ensures { result ≡ current (bucket_of X.Interned.digested buckets items.now X.Interned.blank) b count head }
{
    place_of(head).is_some_and(|i| i < count && bucket(items[i], buckets) == b)
}

// The head of a bucket, if it still names a counted thing of that bucket; else 0.
fn head_of<X: Interned>(items: &[X], count: usize, heads: &[u32], b: usize) -> u32
    requires within { b < length heads.now }
    requires counted { count ≤ length items.now }
    ensures { result ≡ cleaned (bucket_of X.Interned.digested (length heads.now) items.now X.Interned.blank) b count (slice_index heads.now b) }
{
    let head = heads[b];
    if is_current(items, count, heads.len(), b, head) {
        head
    } else {
        0
    }
}

// The place at which a thing stands among the counted ones of lists that are lent for reading.
pub fn find<X: Interned>(
    items: &[X],
    count: usize,
    heads: &[u32],
    next: &[u32],
    x: X,
) -> Option<usize>
    requires { Indexed X.Interned.equal X.Interned.digested X.Interned.blank items.now count heads.now next.now }
    ensures { FoundAmong X.Interned.equal items.now count x result }
{
    let mut at = head_of(items, count, heads, bucket(x, heads.len()));
    while let Some(i) = place_of(at) {
        if items[i].same(x) {
            return Some(i);
        }
        at = next[i];
    }
    None
}

// Puts a thing that is not listed yet at the end of the counted ones. The index is wrong between the writes, so they are made to plain lists.
fn push<X: Interned>(items: &mut [X], count: &mut usize, heads: &mut [u32], next: &mut [u32], x: X)
    requires indexed { Indexed X.Interned.equal X.Interned.digested X.Interned.blank items.old count.old heads.old next.old }
    requires room { count.old < length items.old }
    requires new { index X.Interned.equal (take count.old items.old) x ≡ count.old }
    ensures indexed { Indexed X.Interned.equal X.Interned.digested X.Interned.blank items.new count.new heads.new next.new }
    ensures after { items.new ≡ slice_set items.old count.old x }
    ensures counts { count.new ≡ count.old + 1 }
{
    let b = bucket(x, heads.len());
    next[*count] = head_of(items, *count, heads, b);
    items[*count] = x;
    *count += 1;
    heads[b] = *count as u32;
}

impl<'a, X: Interned> Listed<'a, X> {
    ghost use Rattle.listing.specs.Listing.{Found, Interning, Stays};

    // The place at which a thing stands among the counted ones.
    pub fn find(&self, x: X) -> Option<usize>
        ensures { Found X.Interned.equal self.now x result }
    {
        find(self.items, self.count, self.heads, self.next, x)
    }

    // Lists a thing and gives its place, or none where there is no place left for it.
    pub fn intern(&mut self, x: X) -> Option<usize>
        ensures interned { Interning X.Interned.equal self.old self.new x result }
        ensures stays { Stays self.old self.new }
    {
        if let Some(i) = self.find(x) {
            return Some(i);
        }
        let n = self.count;
        if n == self.items.len() {
            return None;
        }
        push(self.items, &mut self.count, self.heads, self.next, x);
        Some(n)
    }
}
