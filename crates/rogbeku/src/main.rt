// The program: reads a script from the file that is named, or from standard input, runs one book through it and prints what each command answered.
#![tactic(auto)]

mod desk;
mod faults;
mod play;
mod statement;
mod teller;
mod today;

use anyhow::anyhow;
use faults::tell_faults;
use play::play;
use script::error::ReadError;
use script::reading::script;
use std::io::{BufReader, BufWriter, Read, Write};
use std::{env, fs, io};

// The script, whole.
fn input(rt: &HostRuntime) -> io::Result<Vec<u8>> {
    let mut args = env::args(rt)?;
    let _program = args.next();
    match args.next() {
        Some(path) => fs::read(rt, path.as_str()),
        None => {
            let mut text = Vec::new(rt.alloc());
            BufReader::new(rt.alloc(), rt.stdin())?.read_to_end(&mut text)?;
            Ok(text)
        }
    }
}

fn run(rt: &HostRuntime) -> anyhow::Result<()> {
    let heap = rt.alloc();
    let text = input(rt)?;
    let mut out = BufWriter::new(heap, rt.stdout())?;
    match script(heap, text.as_slice()) {
        Ok(lines) => {
            play(out, heap, lines.as_slice())?.flush()?;
            Ok(())
        }
        Err(ReadError::Text(faults)) => {
            tell_faults(&mut out, faults.as_slice())?;
            out.flush()?;
            Err(anyhow!("the script cannot be read"))
        }
        Err(ReadError::Memory(error)) => Err(error.into()),
    }
}

// Status 1 where the script cannot be read, and where input, output or memory fails.
fn main(rt: HostRuntime) -> anyhow::Result<()> {
    run(&rt)
}
