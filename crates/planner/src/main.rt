// The planner: commands from standard input, a line each, and an answer a line.
#![tactic(auto)]

mod answers;
mod buffers;
mod command;
mod number;
mod replies;
mod session;

use session::Session;
use std::{fs, io};

fn main(rt: HostRuntime) -> io::Result<()> {
    let mut session = Session::new(rt.alloc(), rt.stdin(), rt.stdout())?;
    let mut next = session.serve(None)?;
    while let Some(path) = next {
        next = match fs::read(&rt, path.as_str()) {
            Ok(file) => session.serve_file(&file)?,
            Err(_) => session.serve_missing(path.as_str())?,
        };
    }
    session.close()
}
