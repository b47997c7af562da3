// One more field's entries at the end of what a list holds.
ghost use Rattle.std.specs.Prelude.{◌≡◌, ◌+◌, ◌*◌, ◌/◌, ◌≤◌, true, false, length, MatchResult, nat_le};
ghost use Rattle.faults.specs.declared.FileFault.TheVariants.{ListTooShort};
ghost use Rattle.model_file.specs.Entries.{entries, Extends, Appended};

use crate::entry::Entry;
use faults::FileFault;

// Whether so many entries more fit into a list.
fn has_room(length: usize, at: usize, more: usize) -> bool
    ensures { result ≡ nat_le (at + more) length }
{
    at <= length && more <= length - at
}

// Writes the entries of a body into a list from a place on.
fn write_entries<E: Entry>(list: &mut [E], at: usize, body: &[u8])
    requires { at + length body.now / E.Entry.SIZE ≤ length list.old }
    ensures { Extends (entries E.Entry.SIZE E.Entry.meaning body.now) at list.old list.new }
{
    // By its place, since after an `iter_mut` only the length of a list is known.
    for (j, bytes) in body.chunks_exact(E::SIZE).enumerate() {
        list[at + j] = E::decode(bytes);
    }
}

// Appends the entries of a body to the first `at` of a list, and gives their new count.
pub fn append<E: Entry>(list: &mut [E], at: usize, body: &[u8]) -> Result<usize, FileFault>
    ensures { MatchResult result
        (λ count. Appended E.Entry.SIZE E.Entry.meaning body.now at list.old list.new count)
        (λ fault. (fault ≡ ListTooShort) × (nat_le (at + length body.now / E.Entry.SIZE) (length list.old) ≡ false) × (list.new ≡ list.old)) }
{
    let more = body.len() / E::SIZE;
    if !has_room(list.len(), at, more) {
        return Err(FileFault::ListTooShort);
    }
    write_entries(list, at, body);
    Ok(at + more)
}
