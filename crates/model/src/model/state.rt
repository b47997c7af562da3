// Which numbers are states.
ghost use Rattle.std.specs.Prelude.{◌≡◌, ◌<◌};
ghost use Rattle.model.specs.Asking.{is_state};

pub fn state_exists(conditions: u8, state: u64) -> bool
    requires { conditions < 64 }
    ensures { result ≡ is_state conditions state }
{
    state < 1u64 << conditions
}
