// The functions that the pay offices' suite calls from C: one number of the answer a call. include/decklesail.h declares them.
#![tactic(auto)]

ghost use Rattle.std.specs.Prelude.{◌≡◌, cond, get_or};
ghost use Rattle.dirf.specs.Editions.{edition_name_of, year_of};
ghost use Rattle.dirf.specs.Check.{answer_to};
ghost use Rattle.dirf.specs.Totals.{total_of};
ghost use Rattle.dirf.specs.FieldReader.{field_there, field_start, field_length};
ghost use Rattle.dirf.specs.Amounts.{read_amount};
ghost use Rattle.editions.specs.Editions.{edition_says};
ghost use Rattle.checker.specs.Totals.{totals_in};

use editions::Edition;
use kinds::KINDS;

// The number that the check of a file gives with room for so many entries.
#[unsafe(no_mangle)]
pub extern "C" fn decklesail_check_number(file: &[u8], room: usize) -> u32
    ensures { result ≡ (answer_to file.now room).number }
{
    checker::check_room(file, room).number
}

// The line that it names; on acceptance the last.
#[unsafe(no_mangle)]
pub extern "C" fn decklesail_check_line(file: &[u8], room: usize) -> u32
    ensures { result ≡ (answer_to file.now room).line }
{
    checker::check_room(file, room).line
}

// The field that it names, 0 where it names none.
#[unsafe(no_mangle)]
pub extern "C" fn decklesail_check_field(file: &[u8], room: usize) -> u32
    ensures { result ≡ (answer_to file.now room).field }
{
    checker::check_room(file, room).field
}

fn total_at(totals: &[u64], kind: u32) -> u64
    ensures { result ≡ get_or totals.now kind 0 }
{
    // `as`: no From takes a u32 to a usize
    totals.get(kind as usize).copied().unwrap_or(0)
}

// The total of a kind over the lines that were read, in centavos; 0 for a kind that has none.
#[unsafe(no_mangle)]
pub extern "C" fn decklesail_total(file: &[u8], room: usize, kind: u32) -> u64
    ensures { result ≡ total_of file.now room kind }
{
    let mut totals = [0u64; KINDS];
    checker::room_totals(file, room, &mut totals);
    total_at(&totals, kind)
}

// The check's number, and at place k the total of kind k, for the places that are lent; past the last kind nothing is touched.
#[unsafe(no_mangle)]
pub extern "C" fn decklesail_totals(file: &[u8], room: usize, totals: &mut [u64]) -> u32
    ensures number { result ≡ (answer_to file.now room).number }
    ensures totals { totals.new ≡ totals_in (total_of file.now room) totals.old }
{
    checker::room_totals(file, room, totals).number
}

// No From: Edition and u32 are both of other crates.
fn year(e: Edition) -> u32
    ensures { result ≡ year_of (edition_says e) }
{
    match e {
        Edition::Of2025 => 2025,
        Edition::Of2022 => 2022,
    }
}

// The edition by which a file is judged: 2025 or 2022.
#[unsafe(no_mangle)]
pub extern "C" fn decklesail_edition(file: &[u8]) -> u32
    ensures { result ≡ year_of (edition_name_of file.now) }
{
    year(editions::edition_of(file))
}

// Whether a line has a field k: 1 or 0, which every C compiler reads alike.
#[unsafe(no_mangle)]
pub extern "C" fn decklesail_field_there(line: &[u8], k: usize) -> u32
    ensures { result ≡ cond (field_there k line.now) 1 0 }
{
    u32::from(fields::field_there(line, k))
}

// Where field k starts; the line's length where there is none.
#[unsafe(no_mangle)]
pub extern "C" fn decklesail_field_start(line: &[u8], k: usize) -> usize
    ensures { result ≡ field_start k line.now }
{
    match fields::place_of(line, k) {
        Some(place) => place.start,
        None => line.len(),
    }
}

// How many bytes field k has; 0 where there is none.
#[unsafe(no_mangle)]
#[tactic(auto, unfolding(dirf::specs::FieldReader::field_length))]
pub extern "C" fn decklesail_field_length(line: &[u8], k: usize) -> usize
    ensures { result ≡ field_length k line.now }
{
    fields::field(line, k).len()
}

// 0 where an amount is read, else 14, 15 or 16.
#[unsafe(no_mangle)]
pub extern "C" fn decklesail_amount_number(field: &[u8]) -> u32
    ensures { result ≡ (read_amount field.now).number }
{
    match rules::read_amount(field) {
        Ok(_) => 0,
        Err(refusal) => refusal.number(),
    }
}

// The amount in centavos, 0 where it is refused.
#[unsafe(no_mangle)]
pub extern "C" fn decklesail_amount_value(field: &[u8]) -> u64
    ensures { result ≡ (read_amount field.now).value }
{
    match rules::read_amount(field) {
        Ok(amount) => amount.0,
        Err(_) => 0,
    }
}
