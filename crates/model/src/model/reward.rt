// The reward of a state.
ghost use Rattle.model.specs.Asking.{is_state, reward_at, Told};
ghost use Rattle.model.specs.Models.{lists_of};

use crate::model::Model;
use crate::model::state::state_exists;
use diagram::look::look;
use diagram::table::Table;
use faults::{CallFault, Fault};

impl Model<'_> {
    pub fn reward(&self, state: u64) -> Result<i64, Fault>
        ensures { Told (is_state self.now.sizes.conditions state) (reward_at self.now.sizes.conditions (lists_of self.now) state) result }
    {
        let conditions = self.sizes.conditions;
        if !state_exists(conditions, state) {
            return Err(CallFault::OutOfRange.into());
        }
        let table = Table {
            leaves: self.lists.rewards,
            nodes: self.lists.reward_nodes,
            root: self.lists.roots[0],
        };
        Ok(look(conditions, table, state))
    }
}
