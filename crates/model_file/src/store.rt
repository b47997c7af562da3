// What becomes of a field: its entries go to the list of its tag.
ghost use Rattle.std.specs.Prelude.{◌≡◌, ◌+◌, ◌^◌, ◌<◌, length};
ghost use Rattle.model_file.specs.Lists.{held, Stays};
ghost use Rattle.model_file.specs.Marks.{sizes_in, Stores};
ghost use Rattle.model_file.specs.Fields.{tag_of, body_of};

use crate::append::append;
use crate::draft::Draft;
use crate::field::Field;
use crate::lists::Lists;
use crate::mark::Mark;
use crate::sizes::Sizes;
use faults::FileFault;

fn sizes_of(body: &[u8]) -> Sizes
    requires { length body.now ≡ 4 }
    ensures { result ≡ sizes_in body.now }
{
    Sizes {
        conditions: body[0],
        moves: body[1],
        discount: u16::from_be_bytes([body[2], body[3]]),
    }
}

// Stores a field in the lists and gives the mark after it, or refuses a field for which a list is too short.
pub fn store(field: Field<'_>, mark: Mark, lists: &mut Lists) -> Result<Mark, FileFault>
    requires sized { tag_of field ≡ 1 → length (body_of field) ≡ 4 }
    requires ends { mark.place + (3 + length (body_of field)) < 2 ^ 64 }
    ensures stored { Stores (tag_of field.entry) (body_of field.entry) (held lists.old) (held lists.new) mark result }
    ensures lent { Stays lists.old lists.new }
{
    let mut draft = mark.draft;
    let mut roots = mark.roots;
    match field {
        Field::Sizes { body, .. } => draft.sizes = sizes_of(body),
        Field::Rewards { body, .. } => {
            draft.rewards = append(lists.rewards, draft.rewards, body)?;
        }
        Field::Chances { body, .. } => {
            draft.chances = append(lists.chances, draft.chances, body)?;
        }
        Field::RewardNodes { body, .. } => {
            draft.reward_nodes = append(lists.reward_nodes, draft.reward_nodes, body)?;
        }
        Field::ChanceNodes { body, .. } => {
            draft.chance_nodes = append(lists.chance_nodes, draft.chance_nodes, body)?;
        }
        Field::Roots { body, .. } => roots = append(lists.roots, roots, body)?,
    }
    Ok(mark.after(field, draft, roots))
}
