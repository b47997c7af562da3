// The reading of a file into the caller's lists.
ghost use Rattle.model_file.specs.Lists.{held, Stays};
ghost use Rattle.model_file.specs.Reading.{ReadInto};

use crate::draft::Draft;
use crate::field::next_field;
use crate::lists::Lists;
use crate::mark::Mark;
use crate::store::store;
use faults::{Fault, FileFault};

// Reads the fields of a file one after another, writes their entries into the lists and gives the draft, or refuses at the first fault.
pub fn read(file: &[u8], lists: &mut Lists) -> Result<Draft, Fault>
    ensures read { ReadInto file.now (held lists.old) (held lists.new) result }
    ensures lent { Stays lists.old lists.new }
{
    let mut mark = Mark::default();
    // The place is no count: each field says by how much it goes on.
    while mark.place < file.len() {
        let place = mark.place;
        let field = next_field(&file[place..], place, mark.last, mark.draft.sizes)?;
        mark = store(field, mark, lists)?;
    }
    if !mark.is_complete() {
        return Err(FileFault::NoRoots { length: file.len() }.into());
    }
    Ok(mark.draft)
}
