// The figure that a draw gives.
ghost use Rattle.std.specs.Prelude.{◌≡◌, ◌^◌, ◌≤◌};
ghost use Rattle.ranges.specs.Ranges.{loss};

pub fn loss_of(discount: u16, spread: u64, rise: u64, fall: u64) -> u64
    requires some { 1 ≤ discount }
    requires below { discount ≤ 9999 }
    requires spread_limit { spread ≤ 2 ^ 42 }
    requires rise_limit { rise ≤ 2 ^ 42 }
    requires fall_limit { fall ≤ 2 ^ 42 }
    ensures { result ≡ loss discount spread rise fall }
{
    let rest = u64::from(10_000 - discount);
    let changes = u64::from(discount) * (rise + fall);
    spread + (changes + (rest - 1)) / rest
}
