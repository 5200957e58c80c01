// Two joined ends on the bench: reads a script of calls from standard input, makes each call at the end that it names, and
// prints what it answered.
#![tactic(auto)]

use crossing::input::read_full;
use crossing::run::print_answers;
use std::io;

// All of the input, or a byte more than a script may have.
fn run_input(rt: &(impl Input + Print), input: &mut [u8]) -> io::Result<()> {
    let mut reader = rt.reader();
    let n = read_full(&mut reader, input)?;
    print_answers(rt, &input[..n])
}

// A byte more than the longest script.
fn main(rt: HostRuntime) -> io::Result<()> {
    let mut input = [0u8; 1048577];
    run_input(&rt, &mut input)
}
