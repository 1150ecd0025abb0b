// The cases of one line: it is written, or a field of it is looked for.
use crate::limits::{BYTES, LENGTHS, ROOM};
use crate::parts::{read_bytes, read_list, read_number, read_room};
use crate::pattern;
use crate::printed::Written;
use crate::stop::{BadCase, Stop};
use editions::Edition;
use std::io::Read;

// An edition as a number, of the years that name one. No TryFrom: Edition and u64 are both of other crates.
pub fn read_edition(input: &mut impl Read) -> Result<Edition, BadCase> {
    let year: u64 = read_number(input)?;
    match year {
        2025 => Ok(Edition::Of2025),
        2022 => Ok(Edition::Of2022),
        _ => Err(BadCase),
    }
}

pub fn replay_line(rt: &impl Print, input: &mut impl Read, edition: Edition) -> Result<(), Stop> {
    let mut room = [0u8; ROOM];
    let mut bytes = [0u8; BYTES];
    let mut numbers = [0usize; LENGTHS];
    let kind: u32 = read_number(input)?;
    let out = read_room(input, &mut room)?;
    let contents = read_bytes(input, &mut bytes)?;
    let lengths = read_list(input, &mut numbers)?;
    pattern::fill(out);
    let (number, field, count) = match writer::write_line(edition, kind, contents, lengths, out) {
        Ok(count) => (0, 0, count),
        Err(breach) => (breach.refusal.number(), breach.field, 0),
    };
    println!(rt; "{number} {field} {}", Written { count, out })?;
    Ok(())
}

pub fn replay_field(rt: &impl Print, input: &mut impl Read) -> Result<(), Stop> {
    let mut bytes = [0u8; BYTES];
    let k: usize = read_number(input)?;
    let line = read_bytes(input, &mut bytes)?;
    match fields::place_of(line, k) {
        Some(place) => println!(rt; "1 {} {}", place.start, place.len)?,
        None => println!(rt; "0 {} 0", line.len())?,
    }
    Ok(())
}
