// The conditions among a record's fields, 19, by kind.
#![tactic(auto)]

ghost use Rattle.std.specs.Prelude.{◌≡◌};
ghost use Rattle.dirf.specs.Kinds.{DECPF, PROC};
ghost use Rattle.fields.specs.Places.{cells_of};
ghost use Rattle.conditions.specs.Broken.{broken_field, death_unstated, other_digits, lawyers_field};

use fields::Cells;
use records::{DECPF, PROC, RRA};

// Of a declaration of special situation: field 10 is 1, and 11 is not S.
#[tactic(auto, unfolding(crate::specs::Broken::death_unstated))]
fn death_unstated(cells: Cells) -> bool
    ensures { result ≡ death_unstated (cells_of cells.entry) }
{
    cells.says(10, b"1") && !cells.says(11, b"S")
}

// The lowest field at which a condition of DECPF is broken.
#[tactic(auto, using(crate::proofs::Fields::decpf_rules), unfolding(crate::proofs::Fields::decpf_opens))]
fn decpf_condition(cells: Cells) -> Option<u32>
    ensures { result ≡ broken_field DECPF (cells_of cells.entry) }
{
    if !cells.says(8, b"S") {
        return None;
    }
    if cells.field(9).is_empty() {
        return Some(9);
    }
    if cells.field(10).is_empty() {
        return Some(10);
    }
    if death_unstated(cells) {
        return Some(11);
    }
    if cells.field(13).is_empty() {
        return None;
    }
    Some(13)
}

// A lawyer's number is there, and has not so many digits.
#[tactic(auto, using(std::proofs::lemmas::Bool::Decides::nat_tests), unfolding(crate::specs::Broken::other_digits))]
fn other_digits(number: usize, digits: usize) -> bool
    ensures { result ≡ other_digits number digits }
{
    number != 0 && number != digits
}

// Where the lawyer's kind means so many digits in field 5 and up to so many bytes in 6: the lower one that does not agree.
#[tactic(auto, using(std::proofs::lemmas::Bool::Decides::nat_tests), unfolding(crate::specs::Broken::lawyers_field))]
fn lawyers_field(cells: Cells, digits: usize, most: usize) -> Option<u32>
    ensures { result ≡ lawyers_field digits most (cells_of cells.entry) }
{
    let wrong = other_digits(cells.field(5).len(), digits);
    let long = most < cells.field(6).len();
    if wrong {
        return Some(5);
    }
    if long {
        return Some(6);
    }
    None
}

// The lowest field at which a condition of PROC or RRA is broken.
fn lawyer_condition(cells: Cells) -> Option<u32>
    ensures { result ≡ broken_field PROC (cells_of cells.entry) }
{
    if cells.says(4, b"1") {
        return lawyers_field(cells, 11, 60);
    }
    if cells.says(4, b"2") {
        return lawyers_field(cells, 14, 150);
    }
    if cells.says(4, b"") {
        return lawyers_field(cells, 0, 0);
    }
    None
}

// 19: the lowest field at which a condition of the kind is broken.
#[tactic(auto, using(std::proofs::lemmas::Bool::Decides::nat_tests), unfolding(crate::proofs::Lawyers::asked_opens))]
pub fn broken_field(cells: Cells, k: u32) -> Option<u32>
    ensures { result ≡ broken_field k (cells_of cells.entry) }
{
    match k {
        DECPF => decpf_condition(cells),
        PROC | RRA => lawyer_condition(cells),
        _ => None,
    }
}
