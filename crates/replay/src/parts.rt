// The parts that a case is made of, as they are read one after the other.
ghost use Rattle.std.specs.Prelude.{◌≤◌, length, IfOk};

use crate::stop::BadCase;
use std::io::Read;

// All of a space. A read that fails cuts the case off, as the end of the input does.
fn fill(input: &mut impl Read, space: &mut [u8]) -> Result<(), BadCase> {
    match input::read_all(input, space) {
        Ok(count) if count == space.len() => Ok(()),
        _ => Err(BadCase),
    }
}

// Eight bytes, low byte first, as a number of the type whose limit it keeps.
pub fn read_number<T: TryFrom<u64>>(input: &mut impl Read) -> Result<T, BadCase>
where
    T::Error: Drop,
{
    let mut bytes = [0u8; 8];
    fill(input, &mut bytes)?;
    T::try_from(u64::from_le_bytes(bytes)).map_err(|_| BadCase)
}

// As many places of a space as a number says.
pub fn read_room<'a, T>(input: &mut impl Read, space: &'a mut [T]) -> Result<&'a mut [T], BadCase>
    ensures { IfOk result (λ room. length room.now ≤ length space.old) }
{
    let count: usize = read_number(input)?;
    space.get_mut(..count).ok_or(BadCase)
}

// A byte string, put at the start of a space.
pub fn read_bytes<'a>(input: &mut impl Read, space: &'a mut [u8]) -> Result<&'a [u8], BadCase>
    ensures { IfOk result (λ bytes. length bytes.now ≤ length space.old) }
{
    let bytes = read_room(input, space)?;
    fill(input, bytes)?;
    Ok(bytes)
}

// As many numbers as the first one says, put at the start of a space.
pub fn read_list<'a, T: TryFrom<u64> + Drop>(
    input: &mut impl Read,
    space: &'a mut [T],
) -> Result<&'a mut [T], BadCase>
where
    T::Error: Drop,
    ensures { IfOk result (λ list. length list.now ≤ length space.old) }
{
    let list = read_room(input, space)?;
    for place in list.iter_mut() {
        *place = read_number(input)?;
    }
    Ok(list)
}
