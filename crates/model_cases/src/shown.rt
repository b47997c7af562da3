// What the lists hold, as text.
use model_file::lists::Lists;
use std::alloc::AllocError;
use std::fmt::Display;

fn show_all<T: Display + Copy>(
    text: &mut String,
    title: &str,
    list: &[T],
) -> Result<(), AllocError> {
    text.push_str(title)?;
    for x in list {
        write!(text, " {x}")?;
    }
    Ok(())
}

pub fn show_lists(text: &mut String, lists: &Lists) -> Result<(), AllocError> {
    show_all(text, " | rewards", lists.rewards)?;
    show_all(text, " | chances", lists.chances)?;
    show_all(text, " | reward nodes", lists.reward_nodes)?;
    show_all(text, " | chance nodes", lists.chance_nodes)?;
    show_all(text, " | roots", lists.roots)
}
