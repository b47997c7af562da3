// Loading: reading a file, and then checking what was read.
ghost use Rattle.model_file.specs.Lists.{held, Stays};
ghost use Rattle.model.specs.Loading.{Loads};

use crate::model::Model;
use crate::model::check::check;
use crate::model::held::Held;
use faults::Fault;
use model_file::draft::Draft;
use model_file::lists::Lists;
use model_file::read::read;

// Reads a file into the lists and checks the draft. The draft that it gives passes a second check over the same lists.
pub fn load(file: &[u8], lists: &mut Lists) -> Result<Draft, Fault>
    ensures loaded { Loads file.now (held lists.old) (held lists.new) result }
    ensures lent { Stays lists.old lists.new }
{
    let draft = read(file, lists)?;
    let mut model = Model::blank();
    check(draft, Held::from(&*lists), &mut model)?;
    Ok(draft)
}
