// Reads jobs from standard input, one to a line, calls what each asks for, and writes an answer line for each.
// tests/lines.py says what the columns of both lines are; tests/expected.py makes jobs and knows the answers by itself.
#![tactic(auto)]

mod calls; // a job's call
mod fields; // calls on field units, buffer fields, flags and types
mod job; // the columns of a job, and what they say
mod lent; // the bytes that a job lends
mod lines; // numbers in columns
mod operators; // the operators
mod told; // the columns of an answer
mod values; // conversions, status, ToInteger

use crate::calls::Room;
use crate::job::Job;
use std::io::{self, Read, Write};

fn main(rt: HostRuntime) -> io::Result<()> {
    let mut room = Room {
        first: [0; 65544],
        second: [0; 65544],
        third: [0; 65544],
        out: [0; 131088],
    };
    answer_all(&mut rt.stdin(), &mut rt.stdout(), &mut room)
}

// A line that is not whole ends the run; so does the ten millionth.
fn answer_all(input: &mut impl Read, output: &mut impl Write, room: &mut Room) -> io::Result<()> {
    for _ in 0..10_000_000 {
        if !answer_next(input, output, room)? {
            break;
        }
    }
    Ok(())
}

// Is there another line, and was it answered?
fn answer_next(
    input: &mut impl Read,
    output: &mut impl Write,
    room: &mut Room,
) -> io::Result<bool> {
    let mut line = [b'0'; 496];
    if input::read_full(input, &mut line)? < 496 {
        return Ok(false);
    }
    output.write_all(&calls::answer(&Job::read(&line), room).0)?;
    Ok(true)
}
