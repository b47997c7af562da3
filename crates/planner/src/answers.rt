// The answers to the questions about a model.
use crate::command::Command;
use crate::number::number;
use crate::replies::Replies;
use diagram::conditions::After;
use faults::Fault;
use model::model::Model;
use std::fmt::Display;
use std::io;
use std::io::Write;

// Why a question has no answer.
#[derive(Clone, Copy)]
enum Unanswered<'a> {
    NotANumber(&'a str),
    Refused(Fault),
}

impl<'a> From<Fault> for Unanswered<'a> {
    fn from(fault: Fault) -> Unanswered<'a> {
        Unanswered::Refused(fault)
    }
}

fn read_number(word: &str) -> Result<u64, Unanswered<'_>> {
    number(word).ok_or(Unanswered::NotANumber(word))
}

fn reward<'a>(model: &Model, state: &'a str) -> Result<i64, Unanswered<'a>> {
    let state = read_number(state)?;
    Ok(model.reward(state)?)
}

fn chance<'a>(
    model: &Model,
    chosen: &'a str,
    condition: &'a str,
    state: &'a str,
) -> Result<u16, Unanswered<'a>> {
    let chosen = read_number(chosen)?;
    let condition = read_number(condition)?;
    let state = read_number(state)?;
    // No model has a condition 255, so a number past one byte is out of range as that is.
    let condition = After(u8::try_from(condition).unwrap_or(u8::MAX));
    Ok(model.chance(chosen, condition, state)?)
}

impl<O: Write + Drop> Replies<O> {
    // Answers a command that is not a load.
    pub fn answer(
        &mut self,
        model: Option<&Model>,
        command: Command,
        line: &str,
    ) -> io::Result<()> {
        match (command, model) {
            (Command::Reward(state), Some(model)) => self.say_answer(
                "reward ",
                reward(model, state),
            ),
            (Command::Chance(chosen, condition, state), Some(model)) => {
                self.say_answer("chance ", chance(model, chosen, condition, state))
            }
            (Command::Reward(_) | Command::Chance(_, _, _), None) => {
                self.say("not now: ", "no model is loaded")
            }
            _ => self.say("unknown command: ", line),
        }
    }

    fn say_answer<T: Display + Drop>(
        &mut self,
        label: &str,
        answer: Result<T, Unanswered>,
    ) -> io::Result<()> {
        match answer {
            Ok(value) => self.say(label, value),
            Err(Unanswered::NotANumber(word)) => self.say("not a number: ", word),
            Err(Unanswered::Refused(fault)) => self.refuse(fault),
        }
    }
}
