// The desk program: a file on standard input, one line on standard output: number, line, field, entries.
#![tactic(auto)]

ghost use Rattle.std.specs.Prelude.{◌≡◌};
ghost use Rattle.desk.specs.Desk.{desk_answer};

use checker::Answer;
use refusals::Refusal;
use std::io;

// Document 01: "Over 65,536 bytes it prints `25 0 0 0`. Its table has 3,000 entries."
const BYTES: usize = 65536;

const ENTRIES: usize = 3000;

// What the desk answers for a file: 25 for one that is too long, else what the check answers with the desk's table.
#[tactic(auto, using(std::proofs::lemmas::Bool::Decides::nat_tests), unfolding(crate::specs::Desk::desk_answer))]
fn desk_answer(file: &[u8]) -> Answer
    ensures { result ≡ desk_answer file.now }
{
    if BYTES < file.len() {
        return Answer {
            number: Refusal::LongFile.number(),
            line: 0,
            field: 0,
            entries: 0,
        };
    }
    let mut table = [0u32; ENTRIES * checker::NUMBERS_AN_ENTRY];
    checker::check(file, &mut table)
}

// Here and in replay: a Display of Answer would stand in checker, which is in the library for C and prints nothing.
fn print_answer(rt: &impl Print, a: Answer) -> io::Result<()> {
    let Answer {
        number,
        line,
        field,
        entries,
    } = a;
    println!(rt; "{number} {line} {field} {entries}")
}

// One byte more than the longest file that is checked, so that a longer one is seen to be longer.
fn main(rt: HostRuntime) -> io::Result<()> {
    let mut buf = [0u8; BYTES + 1];
    let Ok(count) = input::read_all(&mut rt.reader(), &mut buf) else {
        // nothing on standard output: nothing there may be taken for acceptance
        return eprintln!(rt; "desk: standard input cannot be read");
    };
    // cut here, once: how many bytes came is a number on failure too
    print_answer(&rt, desk_answer(&buf[..count]))
}
