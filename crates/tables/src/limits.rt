// What a leaf may be: limits on rewards, chances, values and gathered advice.
ghost use Rattle.std.specs.Prelude.{◌≡◌, ◌+◌, ◌^◌, Bool, ◌&&◌, nat_le, nat_lt};
ghost use Rattle.tables.specs.Limits.{reward_within, chance_within, within as lies_within, ends_within, LimitsArePlain};

use ranges::ends::{Advice, Ends};
use reduction::interned::Interned;

pub trait Limits: Copy {
    type Leaf: Interned;

    ghost within: { Self → Self.Leaf → Bool };

    fn allows(self, leaf: Self::Leaf) -> bool
        ensures { result ≡ within self leaf };
}

const WHOLE: u16 = 10_000;

const MOST_REWARD: u64 = 1 << 32;

const MOST_VALUE: u64 = 1 << 40;

const MOST_GATHERED: u64 = (1 << 40) + (1 << 33);

fn lies_within(limit: u64, z: i64) -> bool
    ensures { result ≡ lies_within limit z }
{
    z.unsigned_abs() <= limit
}

fn are_ends_within(limit: u64, ends: Ends) -> bool
    ensures { result ≡ ends_within limit ends }
{
    ends.low <= ends.high && lies_within(limit, ends.low) && lies_within(limit, ends.high)
}

#[derive(Clone, Copy)]
pub struct ChanceLimits;

impl Limits for ChanceLimits {
    type Leaf = u16;

    ghost within = { λ _ chance. chance_within chance };

    fn allows(self, leaf: u16) -> bool {
        leaf <= WHOLE
    }
}

#[derive(Clone, Copy)]
pub struct RewardLimits;

impl Limits for RewardLimits {
    type Leaf = i64;

    ghost within = { λ _ reward. reward_within reward };

    fn allows(self, leaf: i64) -> bool {
        lies_within(MOST_REWARD, leaf)
    }
}

#[derive(Clone, Copy)]
pub struct ValueLimits;

impl Limits for ValueLimits {
    type Leaf = Ends;

    ghost within = { λ _ value. ends_within (2 ^ 40) value };

    fn allows(self, leaf: Ends) -> bool {
        are_ends_within(MOST_VALUE, leaf)
    }
}

#[derive(Clone, Copy)]
pub struct GatheredLimits {
    pub moves: u8,
}

impl Limits for GatheredLimits {
    type Leaf = Advice;

    ghost within = { λ self held. nat_lt held.chosen self.moves && ends_within (2 ^ 40 + 2 ^ 33) held.ends };

    fn allows(self, leaf: Advice) -> bool {
        leaf.chosen < self.moves && are_ends_within(MOST_GATHERED, leaf.ends)
    }
}

// What the limits say in plain facts.
pub fn limits_are_plain()
    ensures { LimitsArePlain }
{}
