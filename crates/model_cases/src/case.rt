// One row of the table.
use crate::hex::bytes_of;
use crate::shown::show_lists;
use diagram::conditions::{Before, Condition};
use diagram::nodes::Node;
use model::load::load;
use model_file::lists::Lists;
use std::alloc::{AllocError, Global};

// The next of the lengths, or what is long enough for a file of so many bytes.
fn length(word: Option<&str>, file: usize) -> usize {
    word.and_then(|word| word.parse().ok())
        .map_or(file, |n: usize| n.min(file))
}

// What loading answers; where the lengths are given, with what the lists hold after it. Each list begins with a mark of its own in every place.
pub fn answer(heap: Global, lengths: &str, text: &str) -> Result<String, AllocError> {
    let shows = lengths != "fit";
    let file = bytes_of(heap, text)?;
    let mut words = lengths.split_ascii_whitespace();
    let mark = Node {
        condition: Condition::Before(Before(9)),
        one: 9,
        zero: 9,
    };
    let n = file.len();
    let mut rewards = vec![in heap; -1i64; length(words.next(), n)]?;
    let mut chances = vec![in heap; 7u16; length(words.next(), n)]?;
    let mut reward_nodes = vec![in heap; mark; length(words.next(), n)]?;
    let mut chance_nodes = vec![in heap; mark; length(words.next(), n)]?;
    let mut roots = vec![in heap; 7u32; length(words.next(), n)]?;
    let mut lists = Lists {
        rewards: &mut rewards,
        chances: &mut chances,
        reward_nodes: &mut reward_nodes,
        chance_nodes: &mut chance_nodes,
        roots: &mut roots,
    };
    let mut out = match load(&file, &mut lists) {
        Ok(draft) => {
            let sizes = draft.sizes;
            format!(in heap; "loaded {sizes}")?
        }
        Err(fault) => format!(in heap; "{fault}")?,
    };
    if shows {
        show_lists(&mut out, &lists)?;
    }
    Ok(out)
}
