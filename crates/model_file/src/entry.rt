// An entry of a list of the file: how many bytes it has, and what they mean. Numbers have their highest byte first.
ghost use Rattle.std.specs.Prelude.{◌≡◌, ℕ, ◌<◌, ◌≤◌, List, length};
ghost use Rattle.model_file.specs.Entries.{reward_of, chance_of, node_of, root_of};
ghost use Rattle.std.proofs.Common.{rules};

use diagram::conditions::{Before, Condition};
use diagram::nodes::Node;

// An impl for each number: they differ in size, and an array's length cannot be a constant of the type.
pub trait Entry: Copy {
    const SIZE: usize;

    ghost SIZE: { ℕ };

    ghost meaning: { List ℕ → Self };

    fn decode(bytes: &[u8]) -> Self
        requires { length bytes.now ≡ SIZE }
        ensures { result ≡ meaning bytes.now };

    ghost some: { 0 < SIZE };
}

impl Entry for i64 {
    const SIZE: usize = 8;

    ghost SIZE = { 8 };

    ghost meaning = { reward_of };

    ghost some = { Prim.search rules };

    fn decode(bytes: &[u8]) -> i64 {
        i64::from_be_bytes(bytes.try_into().unwrap())
    }
}

impl Entry for u16 {
    const SIZE: usize = 2;

    ghost SIZE = { 2 };

    ghost meaning = { chance_of };

    ghost some = { Prim.search rules };

    fn decode(bytes: &[u8]) -> u16 {
        u16::from_be_bytes(bytes.try_into().unwrap())
    }
}

impl Entry for u32 {
    const SIZE: usize = 4;

    ghost SIZE = { 4 };

    ghost meaning = { root_of };

    ghost some = { Prim.search rules };

    fn decode(bytes: &[u8]) -> u32 {
        u32::from_be_bytes(bytes.try_into().unwrap())
    }
}

impl Entry for Node {
    const SIZE: usize = 9;

    ghost SIZE = { 9 };

    ghost meaning = { node_of };

    ghost some = { Prim.search rules };

    fn decode(bytes: &[u8]) -> Node {
        Node {
            condition: Condition::Before(Before(bytes[0])),
            one: u32::decode(&bytes[1..5]),
            zero: u32::decode(&bytes[5..]),
        }
    }
}
