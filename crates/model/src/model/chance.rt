// The chances of a move.
ghost use Rattle.std.specs.Prelude.{◌&&◌, nat_lt};
ghost use Rattle.model.specs.Asking.{is_state, chance_at, Told};
ghost use Rattle.model.specs.Models.{lists_of};

use crate::model::Model;
use crate::model::state::state_exists;
use diagram::conditions::After;
use diagram::look::look;
use diagram::table::Table;
use faults::{CallFault, Fault};
use model_file::sizes::Sizes;

impl Model<'_> {
    // How many times in 10,000 a move from a state leaves a condition at 1.
    pub fn chance(&self, chosen: u64, condition: After, state: u64) -> Result<u16, Fault>
        ensures { Told
            (nat_lt chosen self.now.sizes.moves && (nat_lt condition.0 self.now.sizes.conditions && is_state self.now.sizes.conditions state))
            (chance_at self.now.sizes.conditions (lists_of self.now) chosen condition.0 state) result }
    {
        let Sizes {
            conditions,
            moves,
            ..
        } = self.sizes;
        if chosen >= moves as u64 || condition.0 >= conditions || !state_exists(conditions, state) {
            return Err(CallFault::OutOfRange.into());
        }
        let root = 1 + (chosen as usize * conditions as usize + condition.0 as usize);
        let table = Table {
            leaves: self.lists.chances,
            nodes: self.lists.chance_nodes,
            root: self.lists.roots[root],
        };
        Ok(look(conditions, table, state))
    }
}
