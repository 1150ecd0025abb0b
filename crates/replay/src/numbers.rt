// The cases of amounts and month counts: a field is read, or a value is written.
use crate::limits::{BYTES, ROOM};
use crate::parts::{read_bytes, read_number, read_room};
use crate::pattern;
use crate::printed::Written;
use crate::stop::Stop;
use refusals::Refusal;
use rules::{Centavos, MonthTenths};
use std::io::Read;

// A field for a reader, which gives its value or refuses it.
fn replay_reader<F: Fn(&[u8]) -> Result<u64, Refusal>>(
    rt: &impl Print,
    input: &mut impl Read,
    read: F,
) -> Result<(), Stop>
    requires { F.IsAlwaysCallable read }
{
    let mut bytes = [0u8; BYTES];
    let field = read_bytes(input, &mut bytes)?;
    match read(field) {
        Ok(value) => println!(rt; "0 {value}")?,
        Err(refusal) => println!(rt; "{} 0", refusal.number())?,
    }
    Ok(())
}

pub fn replay_amount_read(rt: &impl Print, input: &mut impl Read) -> Result<(), Stop> {
    replay_reader(rt, input, |field| Ok(rules::read_amount(field)?.0))
}

pub fn replay_months_read(rt: &impl Print, input: &mut impl Read) -> Result<(), Stop> {
    replay_reader(rt, input, |field| Ok(rules::read_months(field)?.0))
}

// A value and the bytes of room for a writer.
fn replay_writer<F: Fn(u64, &mut [u8]) -> Result<usize, Refusal>>(
    rt: &impl Print,
    input: &mut impl Read,
    write: F,
) -> Result<(), Stop>
    requires { F.IsAlwaysCallable write }
{
    let mut room = [0u8; ROOM];
    let value: u64 = read_number(input)?;
    let out = read_room(input, &mut room)?;
    pattern::fill(out);
    let (number, count) = match write(value, out) {
        Ok(count) => (0, count),
        Err(refusal) => (refusal.number(), 0),
    };
    println!(rt; "{number} {}", Written { count, out })?;
    Ok(())
}

pub fn replay_amount_written(rt: &impl Print, input: &mut impl Read) -> Result<(), Stop> {
    replay_writer(
        rt,
        input,
        |value, out| writer::write_amount(Centavos(value), out),
    )
}

pub fn replay_months_written(rt: &impl Print, input: &mut impl Read) -> Result<(), Stop> {
    replay_writer(
        rt,
        input,
        |value, out| writer::write_months(MonthTenths(value), out),
    )
}
