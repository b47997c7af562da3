// Ranges of whole numbers, and the arithmetic of a pass: rounding, the average by a chance, the discount, the reward, the loss.
#![tactic(auto)]

pub mod ends;
pub mod interned;
pub mod loss;
mod multiple;
pub mod range;
pub mod rounding;

#[cfg(test)]
mod tests {
    use crate::ends::Ends;
    use crate::loss::loss_of;
    use crate::range::Range;
    use crate::rounding::{ceiling_of, floor_of};

    fn point(value: i64) -> Option<Range> {
        Range::new(Ends {
            low: value,
            high: value,
        })
    }

    fn pair(range: Range) -> (i64, i64) {
        let ends = range.ends();
        (ends.low, ends.high)
    }

    // The average of 5,000 parts, and of 9,000 parts.
    fn even(one: i64, zero: i64) -> Option<(i64, i64)> {
        Some(pair(Range::average(5_000, point(one)?, point(zero)?)))
    }

    fn mostly(one: i64, zero: i64) -> Option<(i64, i64)> {
        Some(pair(Range::average(9_000, point(one)?, point(zero)?)))
    }

    fn less(value: i64) -> Option<(i64, i64)> {
        Some(pair(point(value)?.discounted(9_000)))
    }

    #[test]
    fn quotients(rt: HostRuntime) {
        assert_eq!(rt; floor_of(-1, 10_000), -1);
        assert_eq!(rt; ceiling_of(-1, 10_000), 0);
        assert_eq!(rt; loss_of(9_000, 0, 81, 0), 729);
        assert_eq!(rt; loss_of(9_000, 2, 71, 0), 641);
    }

    #[test]
    fn ranges(rt: HostRuntime) {
        assert_eq!(rt; even(-1, 0), Some((-1, 0)));
        assert_eq!(rt; mostly(181, 45), Some((167, 168)));
        assert_eq!(rt; less(90), Some((81, 81)));
    }
}
