// Replays a run of cases from standard input through the library, and prints what each comes to: through it any outside suite can hold the
// library, table and writers included, against its own expectation. docs/REPLAY.md has the form of a case.
#![tactic(auto)]

mod case;
mod files;
mod limits;
mod lines;
mod numbers;
mod parts;
mod pattern;
mod printed;
mod questions;
mod stop;

use case::Case;
use std::io;
use std::io::Read;
use stop::Stop;

// Case after case, until the input ends.
fn replay(rt: &impl Print, input: &mut impl Read) -> Result<(), Stop> {
    // a proved loop has to end, and nothing says that the input does: no run uses so many turns up
    for _ in 0..u64::MAX {
        let Some(case) = Case::next(input)? else {
            break;
        };
        case.replay(rt, input)?;
    }
    Ok(())
}

fn main(rt: HostRuntime) -> io::Result<()> {
    match replay(&rt, &mut rt.reader()) {
        Ok(()) => Ok(()),
        Err(Stop::BadCase) => println!(rt; "bad case"),
        Err(Stop::NotPrinted(error)) => Err(error),
    }
}
