// The test that three diagrams can be read together, for callers that know nothing of them.
ghost use Rattle.std.specs.Prelude.{◌≡◌, ◌+◌, true, length, Decides, MatchOption};
ghost use Rattle.diagram.specs.Lawful.{Lawful};
ghost use Rattle.sources.specs.Inputs.{Named, Readable, LawfullyRead};
ghost use Rattle.sources.specs.Spots.{AllLawfullyRead};

use crate::input::Input;
use crate::reading::Reading;
use crate::three::Sources;
use diagram::conditions::Domain;
use diagram::lawful::{NodeList, names_something};
use diagram::table::Table;

impl<L> Input<'_, L> {
    fn is_lawful(self, domain: Domain) -> bool
        ensures { Decides result (Lawful domain (length self.entry.table.leaves.now) self.entry.table.nodes.now) }
    {
        let list = NodeList {
            domain,
            leaves: self.table.leaves.len(),
            nodes: self.table.nodes,
        };
        list.first_unlawful().is_none()
    }

    // Whether a diagram is lawful as it is read, and a root names something in it. Over the conditions after a move only a table over states is read.
    fn is_readable(self, conditions: u8, root: u32) -> bool
        ensures readable { result ≡ true → Readable self.entry (conditions + conditions) }
        ensures named { result ≡ true → Named self.entry root }
        ensures exactly { root ≡ self.entry.table.root → Decides result (LawfullyRead conditions self.entry) }
    {
        let Table { leaves, nodes, .. } = self.table;
        if !names_something(leaves.len(), nodes.len(), root) {
            return false;
        }
        let after = self.offset == conditions;
        if !after && self.offset > 0 {
            return false;
        }
        self.is_lawful(Domain { conditions, after })
    }
}

impl<'a, 'b, 'c, A, B, C> Reading<'a, 'b, 'c, A, B, C> {
    // The three diagrams where each is lawful as it is read; none where one of them is not.
    pub fn new(sources: Sources<'a, 'b, 'c, A, B, C>) -> Option<Self>
        ensures { MatchOption result (AllLawfullyRead sources.entry → ⊥) (λ reading. reading.sources ≡ sources.entry) }
    {
        let n = sources.conditions;
        if sources.first.is_readable(n, sources.first.table.root)
            && sources.second.is_readable(n, sources.second.table.root)
            && sources.third.is_readable(n, sources.third.table.root)
        {
            Some(Reading { sources })
        } else {
            None
        }
    }
}
