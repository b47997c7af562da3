// What a pass does to leaves: rewards made ranges, the average by a chance, the best of the moves, the discount, the reward added.
#![tactic(auto)]

pub mod as_range;
pub mod average;
pub mod discounted;
pub mod first_gathered;
pub mod gathered;
pub mod kept;
pub mod rewarded;
pub mod unmoved;

#[cfg(test)]
mod tests {
    use crate::average::Average;
    use crate::discounted::Discounted;
    use crate::gathered::Gathered;
    use crate::rewarded::Rewarded;
    use ranges::ends::{Advice, Ends};
    use reduction::interned::Nothing;
    use sources::combining::Combining;

    fn parts(advice: Advice) -> (u8, i64, i64) {
        (advice.chosen, advice.ends.low, advice.ends.high)
    }

    // Move 0 with the range from 5 to 7 is held, and move 1 is shown.
    fn best(low: i64, high: i64) -> (u8, i64, i64) {
        let held = Advice {
            chosen: 0,
            ends: Ends { low: 5, high: 7 },
        };
        parts(Gathered { chosen: 1 }.combine(held, Ends { low, high }, Nothing))
    }

    #[test]
    fn averages_round_outwards(rt: HostRuntime) {
        let one = Ends { low: -1, high: -1 };
        let zero = Ends { low: 0, high: 0 };
        let ends = Average.combine(one, zero, 5_000);
        assert_eq!(rt; (ends.low, ends.high), (-1, 0));
    }

    #[test]
    fn the_lower_move_wins_at_equal_lows(rt: HostRuntime) {
        assert_eq!(rt; best(5, 9), (0, 5, 9));
        assert_eq!(rt; best(6, 6), (1, 6, 7));
    }

    #[test]
    fn moves_are_kept(rt: HostRuntime) {
        let held = Advice {
            chosen: 1,
            ends: Ends { low: 45, high: 46 },
        };
        let later = Discounted { discount: 9_000 }.combine(held, Nothing, Nothing);
        assert_eq!(rt; parts(later), (1, 40, 42));
        assert_eq!(rt; parts(Rewarded.combine(held, -100, Nothing)), (1, -55, -54));
    }
}
