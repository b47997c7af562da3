// A session: the lines of the input, and the replies to them.
ghost use Rattle.std.specs.Prelude.{◌≡◌, ◌<◌, true, IfOk, IfErr};
ghost use Rattle.std.specs.IoError.{error_kind};
ghost use Rattle.std.specs.declared.io.ErrorKind.TheVariants.{OutOfMemory};
ghost use Rattle.planner.specs.Input.{Advances};

use crate::buffers::Buffers;
use crate::command::Command;
use crate::replies::Replies;
use model::model::Model;
use std::alloc::Global;
use std::io;
use std::io::{BufRead, BufReader, Read, Write};

// A line without its end, which may be that of another system. A last line without an end is as it stands.
fn without_end(line: &[u8]) -> &[u8] {
    match line.strip_suffix(b"\n") {
        Some(text) => text.strip_suffix(b"\r").unwrap_or(text),
        None => line,
    }
}

#[derive(Drop)]
pub struct Session<I: Read + Drop, O: Write + Drop> {
    heap: Global,
    input: BufReader<I>,
    // Each line is read into the room of the one before.
    line: Vec<u8>,
    // How many lines may still be read. Nothing says that an input ends.
    turns: u64,
    replies: Replies<O>,
}

impl<I: Read + Drop, O: Write + Drop> Session<I, O> {
    // Out of memory is the only error; the two streams are then dropped.
    pub fn new(heap: Global, input: I, output: O) -> io::Result<Session<I, O>>
        ensures begun { IfOk result (λ s. (s.replies.commands ≡ 0) × (s.replies.refused ≡ 0)) }
        ensures err { IfErr result (λ e. error_kind e ≡ OutOfMemory) }
    {
        Ok(Session {
            heap,
            input: BufReader::new(heap, input)?,
            line: Vec::new(heap),
            turns: u64::MAX,
            replies: Replies::new(heap, output)?,
        })
    }

    // Reads the next line, and says whether there was one. By hand, not by `split`: that would not say whether a last line
    // had an end, and would take new room for each line.
    fn next_line(&mut self) -> io::Result<bool>
        ensures { IfOk result (λ more. more ≡ true → self.new.turns < self.old.turns) }
    {
        let Some(turns) = self.turns.checked_sub(1) else {
            return Ok(false);
        };
        self.turns = turns;
        self.line.clear();
        Ok(self.input.read_until(b'\n', &mut self.line)? > 0)
    }

    // Answers commands over a model, or over none, until a file is to be loaded, and gives its path; none at the end of the input.
    pub fn serve(&mut self, model: Option<&Model>) -> io::Result<Option<String>>
        ensures { Advances self.old.turns self.new.turns result }
    {
        while self.next_line()? {
            // Bytes that are no text show as the sign for that.
            let text = String::from_utf8_lossy(self.heap, without_end(&self.line))?;
            match Command::of(text.as_str()) {
                Command::Nothing => {}
                Command::Load(path) => {
                    self.replies.count();
                    return Ok(Some(String::from_str(self.heap, path)?));
                }
                command => {
                    self.replies.count();
                    self.replies.answer(model, command, text.as_str())?;
                }
            }
        }
        Ok(None)
    }

    // Serves over the model of a file, or over none where it is refused.
    pub fn serve_file(&mut self, file: &[u8]) -> io::Result<Option<String>>
        ensures { Advances self.old.turns self.new.turns result }
    {
        let mut buffers = Buffers::for_file(self.heap, file.len())?;
        match buffers.load(file) {
            Ok(model) => {
                self.replies.say("loaded ", model.sizes())?;
                self.serve(Some(&model))
            }
            Err(fault) => {
                self.replies.refuse(fault)?;
                self.serve(None)
            }
        }
    }

    pub fn serve_missing(&mut self, path: &str) -> io::Result<Option<String>>
        ensures { Advances self.old.turns self.new.turns result }
    {
        self.replies.say("cannot read ", path)?;
        self.serve(None)
    }

    pub fn close(self) -> io::Result<()> {
        self.replies.close()
    }
}
