// Lawful tables: the counted leaves and nodes of two lists, with a root.
#![tactic(auto)]

pub mod lawful;
pub mod limits;
pub mod outside;
pub mod over_states;

#[cfg(test)]
mod tests {
    use crate::lawful::{Extent, is_lawful_table};
    use crate::limits::{ChanceLimits, GatheredLimits, Limits, RewardLimits, ValueLimits};
    use diagram::conditions::{After, Before, Condition, Domain};
    use diagram::nodes::Node;
    use ranges::ends::{Advice, Ends};

    fn node(number: u8, one: u32, zero: u32) -> Node {
        Node {
            condition: Condition::Before(Before(number)),
            one,
            zero,
        }
    }

    fn extent(leaves: usize, nodes: usize, root: u32) -> Extent {
        Extent {
            leaves,
            nodes,
            root,
        }
    }

    // Two rewards under two nodes, over the states of two conditions.
    fn passes(first: Node, second: Node, extent: Extent) -> bool {
        let domain = Domain {
            conditions: 2,
            after: false,
        };
        is_lawful_table(RewardLimits, domain, &[0, 100], &[first, second], extent)
    }

    // One node that tests an after-condition.
    fn passes_after(after: bool) -> bool {
        let domain = Domain {
            conditions: 2,
            after,
        };
        let node = Node {
            condition: Condition::After(After(1)),
            one: 1,
            zero: 0,
        };
        is_lawful_table(
            RewardLimits,
            domain,
            &[0, 100],
            &[node],
            extent(2, 1, 65536),
        )
    }

    #[test]
    fn counts_and_roots(rt: HostRuntime) {
        let first = node(1, 1, 0);
        let second = node(0, 65536, 0);
        assert!(rt; passes(first, second, extent(2, 2, 65537)));
        assert!(rt; passes(first, second, extent(2, 1, 65536)));
        assert!(rt; !passes(first, second, extent(3, 2, 65537)));
        assert!(rt; !passes(first, second, extent(2, 3, 65537)));
        assert!(rt; !passes(first, second, extent(2, 1, 65537)));
        assert!(rt; !passes(first, second, extent(2, 2, 2)));
    }

    #[test]
    fn branches_and_conditions(rt: HostRuntime) {
        let whole = extent(2, 2, 65537);
        let first = node(1, 1, 0);
        assert!(rt; !passes(node(1, 2, 0), node(0, 65536, 0), whole));
        assert!(rt; !passes(first, node(1, 65536, 0), whole));
        assert!(rt; !passes(node(0, 1, 0), node(1, 65536, 0), whole));
        assert!(rt; !passes(node(0, 65537, 0), first, whole));
        assert!(rt; !passes(first, node(2, 1, 0), whole));
        assert!(rt; !passes_after(false));
        assert!(rt; passes_after(true));
    }

    #[test]
    fn leaves(rt: HostRuntime) {
        let domain = Domain {
            conditions: 0,
            after: false,
        };
        assert!(rt; !is_lawful_table(RewardLimits, domain, &[0, 4294967297], &[], extent(2, 0, 0)));
        assert!(rt; is_lawful_table(RewardLimits, domain, &[0, 4294967297], &[], extent(1, 0, 0)));
        assert!(rt; ChanceLimits.allows(10_000) && !ChanceLimits.allows(10_001));
    }

    fn is_value(low: i64, high: i64) -> bool {
        ValueLimits.allows(Ends { low, high })
    }

    fn is_gathered(chosen: u8, low: i64) -> bool {
        let ends = Ends { low, high: 0 };
        GatheredLimits { moves: 2 }.allows(Advice { chosen, ends })
    }

    #[test]
    fn ranges(rt: HostRuntime) {
        assert!(rt; is_value(-1099511627776, 1099511627776));
        assert!(rt; !is_value(-1099511627777, 0));
        assert!(rt; !is_value(1, 0));
        assert!(rt; is_gathered(1, -1108101562368));
        assert!(rt; !is_gathered(1, -1108101562369));
        assert!(rt; !is_gathered(2, 0));
    }
}
