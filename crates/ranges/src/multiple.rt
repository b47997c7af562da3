// A multiple, and a mix of two numbers by a chance, of numbers small enough that nothing overflows.
ghost use Rattle.std.specs.Prelude.{◌≡◌, ◌*◌, ◌^◌, ◌≤◌, pos, ◌*ℤ◌, neg_ℤ, ◌≤ℤ◌};
ghost use Rattle.ranges.specs.Whole.{◌·◌};
ghost use Rattle.ranges.specs.Ranges.{mixed};

// Numbers within ±2^41 by clauses: a type for them would ask more of who has numbers.
// The product, where it is small. Apart from the multiple, since the search finds no proof of both in one.
fn product(k: u16, z: i64) -> i64
    requires low { neg_ℤ (pos (k * 2 ^ 41)) ≤ℤ (pos k *ℤ z) }
    requires high { (pos k *ℤ z) ≤ℤ pos (k * 2 ^ 41) }
    ensures { result ≡ pos k *ℤ z }
{
    i64::from(k) * z
}

pub fn multiple_of(k: u16, z: i64) -> i64
    requires low { neg_ℤ (pos (2 ^ 41)) ≤ℤ z }
    requires high { z ≤ℤ pos (2 ^ 41) }
    ensures value { result ≡ k · z }
    ensures least { neg_ℤ (pos (k * 2 ^ 41)) ≤ℤ result }
    ensures greatest { result ≤ℤ pos (k * 2 ^ 41) }
{
    product(k, z)
}

pub fn mixed_of(chance: u16, x: i64, y: i64) -> i64
    requires part { chance ≤ 10000 }
    requires low_x { neg_ℤ (pos (2 ^ 41)) ≤ℤ x }
    requires high_x { x ≤ℤ pos (2 ^ 41) }
    requires low_y { neg_ℤ (pos (2 ^ 41)) ≤ℤ y }
    requires high_y { y ≤ℤ pos (2 ^ 41) }
    ensures { result ≡ mixed chance x y }
{
    multiple_of(chance, x) + multiple_of(10_000 - chance, y)
}
