// Loads each file of a table from standard input, and prints what loading answers and what the lists then hold.
// A row is `LENGTHS | NAME | BYTES`: five list lengths, or `fit` for lists that are long enough, and the file in base sixteen.
#![tactic(auto)]

mod case;
mod hex;
mod shown;

use case::answer;
use std::io;
use std::io::{BufRead, BufReader};

fn main(rt: HostRuntime) -> io::Result<()> {
    let heap = rt.alloc();
    for line in BufReader::new(heap, rt.stdin())?.lines(heap) {
        let line = line?;
        let Some((lengths, rest)) = line.split_once(" | ") else {
            continue;
        };
        let Some((name, bytes)) = rest.split_once(" |") else {
            continue;
        };
        let text = answer(heap, lengths, bytes.trim_ascii())?;
        let text = text.as_str();
        println!(rt; "{name} | {text}")?;
    }
    Ok(())
}
