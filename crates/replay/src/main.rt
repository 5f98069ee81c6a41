// Stored vectors of the posit's operations, of the accumulator's steps and of its rounding, run on the code. Each record of `stdin` has its answer from an exact
// model (tools/replay_vectors.py). A line is printed for each operation: how many were run, and how many answered something else.
#![tactic(auto)]

use std::io;
use std::io::Read;

mod operation; // operation.rt: the operations, by their numbers
mod record; // record.rt: a record of the input, and whether our code gives its answer
mod tally; // tally.rt: how many were run, and how many were wrong

use operation::Operation;
use record::Record;
use tally::Tally;

// How many records are read at most.
const RECORD_LIMIT: u32 = 1_000_000;

fn main(rt: HostRuntime) -> io::Result<()> {
    let tally = replayed(&mut rt.reader())?;
    for (operation, count) in Operation::ALL.iter().zip(&tally.known) {
        println!(rt; "{operation} {count}")?;
    }
    let unknown = tally.unknown;
    println!(rt; "unknown {unknown}")
}

// Every record to the end of the input.
fn replayed(input: &mut impl Read) -> io::Result<Tally> {
    let mut tally = Tally::default();
    let mut before = Record::BLANK;
    for _ in 0..RECORD_LIMIT {
        let Some(record) = Record::read(input)? else {
            break;
        };
        tally.add(record.operation(), record.is_right(&before));
        before = record;
    }
    Ok(tally)
}
