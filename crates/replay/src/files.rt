// The cases of a whole file: its check and its totals, with a table of so many numbers.
use crate::limits::{BYTES, NUMBERS};
use crate::parts::{read_bytes, read_room};
use crate::pattern;
use crate::printed::{Checked, Numbers, Totals};
use crate::stop::Stop;
use kinds::KINDS;
use std::io::Read;

pub fn replay_check(rt: &impl Print, input: &mut impl Read) -> Result<(), Stop> {
    let mut numbers = [0u32; NUMBERS];
    let mut bytes = [0u8; BYTES];
    let table = read_room(input, &mut numbers)?;
    let file = read_bytes(input, &mut bytes)?;
    pattern::fill(table);
    let answer = checker::check(file, table);
    let entries = search::entries(table, answer.entries);
    let rest = u8::from(pattern::is_kept(table, entries.len()));
    println!(rt; "{} {rest}{}", Checked(answer), Numbers(entries))?;
    Ok(())
}

// It begins as replay_check does: the spaces are its own, so a function for these lines would be lent each of them.
pub fn replay_totals(rt: &impl Print, input: &mut impl Read) -> Result<(), Stop> {
    let mut numbers = [0u32; NUMBERS];
    let mut bytes = [0u8; BYTES];
    let table = read_room(input, &mut numbers)?;
    let file = read_bytes(input, &mut bytes)?;
    let mut totals = [0u64; KINDS];
    let answer = checker::check_totals(file, table, &mut totals);
    println!(rt; "{}{}", Checked(answer), Totals(&totals))?;
    Ok(())
}
