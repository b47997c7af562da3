// A lawful model over lists that it holds for reading.
ghost use Rattle.std.specs.Prelude.{◌≡◌, ◌+◌, ◌*◌, true, length};
ghost use Rattle.faults.specs.Tests.{passes};
ghost use Rattle.model.specs.Checking.{model_tests};
ghost use Rattle.model.specs.Held.{lists_in};

use crate::model::held::Held;
use model_file::sizes::Sizes;

mod blank;
mod chance;
pub mod check;
pub mod held;
mod parts;
mod reward;
mod sizes;
mod state;
mod verdicts;

#[derive(Clone, Copy)]
pub struct Model<'a> {
    sizes: Sizes,
    lists: Held<'a>,
    ghost lawful: { passes (model_tests sizes.conditions sizes.moves sizes.discount (lists_in lists)) ≡ true },
    ghost rooted: { length lists.roots.now ≡ 1 + sizes.moves * sizes.conditions },
}
