// A command, as a line of the input writes it.

#[derive(Clone, Copy)]
pub enum Command<'a> {
    Nothing,
    Load(&'a str),
    Reward(&'a str),
    Chance(&'a str, &'a str, &'a str),
    Unknown,
}

impl<'a> Command<'a> {
    // The command of a line. Words stand apart by white space; a blank line and a comment are no command.
    pub fn of(line: &'a str) -> Command<'a> {
        if line.starts_with('#') {
            return Command::Nothing;
        }
        let mut words = line.split_ascii_whitespace();
        match (
            words.next(),
            words.next(),
            words.next(),
            words.next(),
            words.next(),
        ) {
            (None, _, _, _, _) => Command::Nothing,
            (Some("load"), Some(path), None, _, _) => Command::Load(path),
            (Some("reward"), Some(state), None, _, _) => Command::Reward(state),
            (Some("chance"), Some(chosen), Some(condition), Some(state), None) => Command::Chance(
                chosen, condition, state,
            ),
            _ => Command::Unknown,
        }
    }
}
