// What the program writes: a reply a line, and at the end how many commands it answered and refused.
use faults::Fault;
use std::alloc::Global;
use std::fmt::Display;
use std::io;
use std::io::{BufWriter, Write};

#[derive(Drop)]
pub struct Replies<O: Write + Drop> {
    out: BufWriter<O>,
    commands: u64,
    refused: u64,
}

impl<O: Write + Drop> Replies<O> {
    ghost use Rattle.std.specs.Prelude.{◌≡◌, IfOk, IfErr};
    ghost use Rattle.std.specs.IoError.{error_kind};
    ghost use Rattle.std.specs.declared.io.ErrorKind.TheVariants.{OutOfMemory};

    // Out of memory is the only error; the stream is then dropped.
    pub fn new(heap: Global, output: O) -> io::Result<Replies<O>>
        ensures begun { IfOk result (λ r. (r.commands ≡ 0) × (r.refused ≡ 0)) }
        ensures err { IfErr result (λ e. error_kind e ≡ OutOfMemory) }
    {
        Ok(Replies {
            out: BufWriter::new(heap, output)?,
            commands: 0,
            refused: 0,
        })
    }

    pub fn count(&mut self) {
        self.commands = self.commands.saturating_add(1);
    }

    pub fn say<T: Display + Drop>(&mut self, label: &str, what: T) -> io::Result<()> {
        writeln!(self.out, "{label}{what}")
    }

    pub fn refuse(&mut self, fault: Fault) -> io::Result<()> {
        self.refused = self.refused.saturating_add(1);
        writeln!(self.out, "{fault}")
    }

    // The closing line.
    pub fn close(mut self) -> io::Result<()> {
        let commands = self.commands;
        let refused = self.refused;
        writeln!(self.out, "done commands {commands} refused {refused}")?;
        self.out.flush()
    }
}
