// Quotients rounded down and up, right below zero too.
ghost use Rattle.std.specs.Prelude.{◌≡◌, ◌-◌, ◌^◌, ◌<◌, pos, ◌+ℤ◌, ◌≤ℤ◌, ◌<ℤ◌};
ghost use Rattle.std.specs.Int.{int_div_euclid};
ghost use Rattle.ranges.specs.Whole.{◌·◌, floor, ceiling};

// The Euclidean quotient, which by a divisor above zero is the floor.
// Each caller writes its divisor out: a NonZeroU32 would first have to be made of it, by a step that can fail.
fn quotient(z: i64, d: u32) -> i64
    requires { 0 < d }
    ensures { result ≡ int_div_euclid z (pos d) }
{
    z.div_euclid(i64::from(d))
}

pub fn floor_of(z: i64, d: u32) -> i64
    requires { 0 < d }
    ensures value { result ≡ floor d z }
    ensures below { (d · result) ≤ℤ z }
    ensures next { z <ℤ ((d · result) +ℤ pos d) }
{
    quotient(z, d)
}

// One more, where something is left over.
fn raised(floor: i64, rest: i64) -> i64
    requires { (rest ≡ pos 0 → ⊥) → floor <ℤ pos (2 ^ 63 - 1) }
    ensures exact { rest ≡ pos 0 → result ≡ floor }
    ensures over { (rest ≡ pos 0 → ⊥) → result ≡ floor +ℤ pos 1 }
{
    if rest == 0 { floor } else { floor + 1 }
}

pub fn ceiling_of(z: i64, d: u32) -> i64
    requires { 0 < d }
    ensures value { result ≡ ceiling d z }
    ensures above { z ≤ℤ (d · result) }
    ensures next { (d · result) <ℤ (z +ℤ pos d) }
{
    raised(floor_of(z, d), z.rem_euclid(i64::from(d)))
}
