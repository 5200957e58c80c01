// Runs the scripts that its arguments name, one after the other, as `crossings` runs its input: for the stored scripts, whose
// answers are held to those stored with them.
#![tactic(auto)]

use crossing::input::read_full;
use crossing::run::print_answers;
use std::env::{Env, FillError};
use std::fs::File;
use std::rt::Files;
use std::{io, str};

// The longest name that is read; no file has a longer one.
const LONGEST: usize = 4096;

fn print_name(rt: &impl Print, name: &[u8]) -> io::Result<()> {
    rt.write_all(b"== ")?;
    rt.write_all(name)?;
    rt.write_all(b"\n")
}

// All of the script, or a byte more than it may have.
fn run_file(rt: &impl Print, file: &mut impl io::Read, input: &mut [u8]) -> io::Result<()> {
    let n = read_full(file, input)?;
    print_answers(rt, &input[..n])
}

// A byte more than the longest script.
fn run_room(rt: &impl Print, file: &mut impl io::Read) -> io::Result<()> {
    let mut input = [0u8; 1048577];
    run_file(rt, file, &mut input)
}

// A script that cannot be opened is told of, and the next one is run.
fn run_script(rt: &(impl Files + Print + Eprint), name: &[u8]) -> io::Result<()> {
    print_name(rt, name)?;
    let Ok(path) = str::from_utf8(name) else {
        return rt.eprintln("a name that is not UTF-8");
    };
    match File::open(rt, path) {
        Ok(mut file) => run_room(rt, &mut file),
        Err(error) => eprintln!(rt; "{path}: {error}"),
    }
}

// The argument of that number, and whether there is one.
fn run_argument(rt: &(impl Env + Files + Print + Eprint), i: usize) -> io::Result<bool> {
    let mut name = [0u8; LONGEST];
    match rt.arg(i, &mut name) {
        Ok(n) => run_script(rt, &name[..n])?,
        // no file has such a name: it is run as an empty one, which cannot be opened
        Err(FillError::TooLong) => run_script(rt, b"")?,
        Err(FillError::NotPresent) => return Ok(false),
    }
    Ok(true)
}

fn main(rt: HostRuntime) -> io::Result<()> {
    for i in 1..usize::MAX {
        if !run_argument(&rt, i)? {
            break;
        }
    }
    Ok(())
}
