// The rules of a record's fields, 13 to 19 and 26, and the readers of amounts and month counts, which ask the same rules.
#![tactic(auto)]

ghost use Rattle.std.specs.Prelude.{◌≡◌, true, ◌&&◌, not, [], ◌∷◌, ◌≤◌, ◌^◌, min, length};
ghost use Rattle.std.specs.List.{list_all};
ghost use Rattle.dirf.specs.Bytes.{every, some, is_digit, begins_with, same};
ghost use Rattle.dirf.specs.Row.{N, variable};
ghost use Rattle.dirf.specs.Layout.{relation};
ghost use Rattle.dirf.specs.Numbers.{value_of, is_leap, days_in, is_day, is_date};
ghost use Rattle.dirf.specs.Fields.{right_byte, fills_to, size_held, takes_no_zero, dated, valid, digits_held, field_order};
ghost use Rattle.dirf.specs.Conditions.{condition_order};
ghost use Rattle.dirf.specs.Rules.{ask_field, ask_conditions};
ghost use Rattle.dirf.specs.Amounts.{read_number, read_amount, read_months};
ghost use Rattle.fields.specs.Places.{cells_of};
ghost use Rattle.refusals.specs.Numbers.{number_said, found_said};
ghost use Rattle.layout.specs.Tables.{format_of, fill_of, holds_of, rows_in};
ghost use Rattle.layout.specs.Codes.{row_said};
ghost use Rattle.rules.specs.Findings.{number_of, contents_found, letter_of, FilledRight, reading_said};

use fields::Cells;
use layout::Row;
use refusals::{Breach, Refusal};

// Centavos and tenths of a month are never taken for each other.
#[derive(Clone, Copy)]
pub struct Centavos(pub u64);

#[derive(Clone, Copy)]
pub struct MonthTenths(pub u64);

// The rows that say what an amount and a month count are. Letters, since a row is read from a table that may hold any bytes.
const AMOUNT: Row = Row {
    format: b'N',
    fill: b'V',
    size: 13,
    need: b'N',
    holds: b'a',
};

const MONTHS: Row = Row {
    format: b'N',
    fill: b'V',
    size: 4,
    need: b'N',
    holds: b'm',
};

// A byte of the right kind: digits for N and D; no bar, CR or LF for C.
#[tactic(auto, using(std::proofs::lemmas::Bool::Decides::nat_tests), unfolding(crate::proofs::Opens::format_opens))]
fn right_byte(format: u8, b: u8) -> bool
    ensures { result ≡ right_byte (format_of format) b }
{
    match format {
        b'N' | b'D' => b.is_ascii_digit(),
        _ => !matches!(b, b'\n' | b'\r' | b'|'),
    }
}

// 14: every byte of the right kind.
fn right_bytes(format: u8, s: &[u8]) -> bool
    ensures { result ≡ list_all (right_byte (format_of format)) s.now }
{
    s.iter().all(|b| right_byte(format, *b))
}

#[tactic(auto, using(std::proofs::lemmas::Bool::Decides::nat_tests), unfolding(crate::proofs::Opens::holds_opens))]
fn size_held(holds: u8, n: usize) -> bool
    ensures { result ≡ size_held (holds_of holds) n }
{
    match holds {
        b't' => n == 8 || n == 9,
        b'e' => n == 11 || n == 14,
        _ => true,
    }
}

#[tactic(auto, using(std::proofs::lemmas::Bool::Decides::nat_tests), unfolding(crate::proofs::Opens::size_opens))]
fn right_size(row: Row, n: usize) -> bool
    ensures { result ≡ (fills_to (fill_of row.fill) row.size n && size_held (holds_of row.holds) n) }
{
    let size = usize::from(row.size);
    let fills = if row.fill == b'F' {
        n == size
    } else {
        1 <= n && n <= size
    };
    fills && size_held(row.holds, n)
}

#[tactic(auto, using(std::proofs::lemmas::Bool::Decides::nat_tests), unfolding(crate::proofs::Opens::holds_opens))]
fn takes_no_zero(holds: u8) -> bool
    ensures { result ≡ takes_no_zero (holds_of holds) }
{
    matches!(holds, b'a' | b'd' | b'm')
}

// No type for digits: is_date cuts them in three, and would have to build a value of it for each.
// The value of digits, however many: from 10^18 on it is 10^18, so that it fits; std has no such reading.
fn capped(s: &[u8]) -> u64
    requires { every is_digit s.now ≡ true }
    ensures { result ≡ min (10 ^ 18) (value_of s.now) }
{
    let mut n: u64 = 0;
    for &b in s {
        n = n * 10 + u64::from(b - b'0');
        if 1000000000000000000 <= n {
            return 1000000000000000000;
        }
    }
    n
}

// The value of at most eighteen digits.
fn value(s: &[u8]) -> u64
    requires { (every is_digit s.now ≡ true) × (length s.now ≤ 18) }
    ensures { result ≡ value_of s.now }
{
    capped(s)
}

#[tactic(auto, using(std::proofs::lemmas::Bool::Decides::nat_tests), unfolding(dirf::specs::Numbers::is_leap))]
fn is_leap(y: u64) -> bool
    ensures { result ≡ is_leap y }
{
    y % 4 == 0 && (y % 100 != 0 || y % 400 == 0)
}

#[tactic(auto, using(crate::proofs::Values::days), unfolding(dirf::specs::Bytes::bytes_opens))]
fn days_in(y: u64, m: u64) -> u64
    ensures { result ≡ days_in y m }
{
    match m {
        2 if is_leap(y) => 29,
        2 => 28,
        4 | 6 | 9 | 11 => 30,
        1..=12 => 31,
        _ => 0,
    }
}

#[tactic(auto, using(std::proofs::lemmas::Bool::Decides::nat_tests), unfolding(dirf::specs::Numbers::is_day))]
fn is_day(y: u64, m: u64, d: u64) -> bool
    ensures { result ≡ is_day y m d }
{
    1900 <= y && y <= 2099 && 1 <= d && d <= days_in(y, m)
}

// Year, month and day, of however many digits: a row may have any size.
fn is_date(s: &[u8]) -> bool
    requires { every is_digit s.now ≡ true }
    ensures { result ≡ is_date s.now }
{
    let y = value(fields::part(s, 0, 4));
    let m = value(fields::part(s, 4, 2));
    let d = capped(fields::part(s, 6, s.len()));
    is_day(y, m, d)
}

// 17: no date where there has to be one.
#[tactic(auto, using(std::proofs::lemmas::Bool::Decides::nat_tests), unfolding(crate::proofs::Opens::format_opens))]
fn no_such_date(format: u8, s: &[u8]) -> bool
    requires { every (right_byte (format_of format)) s.now ≡ true }
    ensures { result ≡ (dated (format_of format) && not (is_date s.now)) }
{
    format == b'D' && !is_date(s)
}

// 16: a zero in front where there may be none.
#[tactic(auto, using(crate::proofs::FieldOrder::front_lem, std::proofs::lemmas::Bool::Decides::nat_tests))]
fn zero_in_front(holds: u8, s: &[u8]) -> bool
    ensures { result ≡ (takes_no_zero (holds_of holds) && begins_with 48 s.now) }
{
    matches!(s, [b'0', ..]) && takes_no_zero(holds)
}

// One of the printed values, or the record's own identifier.
fn is_valid(name: &[u8], holds: u8, s: &[u8]) -> bool
    ensures { result ≡ valid name.now (holds_of holds) s.now }
{
    match holds {
        b'i' => fields::same(name, s),
        b'y' => fields::same(s, b"2025"),
        b'z' => fields::same(s, b"2024"),
        b'r' => fields::same(s, b"R6GP3ZA"),
        b'o' => fields::same(s, b"2022"),
        b'p' => is_either(s, b"2021", b"2022"),
        b'q' => fields::same(s, b"XJFSFHB"),
        b'k' => is_relation(s),
        _ => is_letter(holds, s),
    }
}

// One text or another.
#[tactic(auto, unfolding(dirf::specs::Bytes::bytes_opens))]
fn is_either(s: &[u8], a: &[u8], b: &[u8]) -> bool
    ensures { result ≡ some (same s.now) (a.now ∷ b.now ∷ []) }
{
    fields::same(s, a) || fields::same(s, b)
}

// How a dependant is related to the person: spouse, child, stepchild, parent, other.
#[tactic(auto, using(crate::proofs::Letters::relation_lem))]
fn is_relation(s: &[u8]) -> bool
    ensures { result ≡ valid [] relation s.now }
{
    is_either(s, b"03", b"04") || is_either(s, b"06", b"08") || fields::same(s, b"10")
}

// One of the printed values of one byte.
#[tactic(auto, using(std::proofs::lemmas::Bool::Decides::nat_tests), unfolding(crate::proofs::Opens::printed_opens))]
fn is_letter(holds: u8, s: &[u8]) -> bool
    ensures { result ≡ letter_of holds s.now }
{
    match holds {
        b's' => matches!(s, [b'N' | b'S']),
        b'1' => matches!(s, [b'0' | b'1']),
        b'2' => matches!(s, [b'1' | b'2']),
        b'3' => matches!(s, [b'1' | b'2' | b'3']),
        b'8' => matches!(s, [b'0' | b'1' | b'2' | b'3' | b'4' | b'8']),
        _ => true,
    }
}

// The check digits of what a field holds.
fn digits_held(holds: u8, s: &[u8]) -> bool
    ensures { result ≡ digits_held (holds_of holds) s.now }
{
    match holds {
        b'c' => digits::right_cpf(s),
        b'j' => digits::right_cnpj(s),
        b'e' => digits::right_either(s),
        _ => true,
    }
}

// 15 to 18, then 26, of a field that is filled and whose bytes are of the right kind.
#[tactic(auto, using(crate::proofs::FieldOrder::codes_filled), unfolding(crate::proofs::FieldOrder::codes_open))]
fn filled_rule(name: &[u8], s: &[u8], row: Row) -> Result<(), Refusal>
    requires { FilledRight s.now row }
    ensures { number_said result ≡ number_of (ask_field 0 field_order name.now (row_said row) s.now) }
{
    if !right_size(row, s.len()) {
        return Err(Refusal::WrongSize);
    }
    if zero_in_front(row.holds, s) {
        return Err(Refusal::ZeroInFront);
    }
    if no_such_date(row.format, s) {
        return Err(Refusal::NoSuchDate);
    }
    if !is_valid(name, row.holds, s) {
        return Err(Refusal::NotAValidValue);
    }
    if !digits_held(row.holds, s) {
        return Err(Refusal::WrongCheckDigit);
    }
    Ok(())
}

// The first of 13 to 18 and 26 that a field breaks.
#[tactic(auto, using(crate::proofs::FieldOrder::field_rules), unfolding(crate::proofs::FieldOrder::codes_open))]
pub fn field_rule(name: &[u8], s: &[u8], row: Row) -> Result<(), Refusal>
    ensures { number_said result ≡ number_of (ask_field 0 field_order name.now (row_said row) s.now) }
{
    if s.is_empty() {
        if row.need == b'S' {
            return Err(Refusal::EmptyField);
        }
        return Ok(());
    }
    if !right_bytes(row.format, s) {
        return Err(Refusal::WrongByte);
    }
    filled_rule(name, s, row)
}

// A number in digits: the rules of its row, then its value.
fn read_number(s: &[u8], row: Row) -> Result<u64, Refusal>
    requires { ((row_said row).format ≡ N) × ((row_said row).fill ≡ variable) × (row.size ≤ 18) }
    ensures { reading_said (λ v. v) result ≡ read_number (row_said row) s.now }
{
    field_rule(&s[..0], s, row)?;
    Ok(value(s))
}

// An amount in centavos: 0 for the empty field, else refused with 14, 15 or 16.
#[tactic(auto, unfolding(crate::proofs::Readings::rows_open))]
pub fn read_amount(s: &[u8]) -> Result<Centavos, Refusal>
    ensures { reading_said (λ c. c.0) result ≡ read_amount s.now }
{
    Ok(Centavos(read_number(s, AMOUNT)?))
}

// A month count in tenths of a month: 0 for the empty field, else 14, 15 or 16. Beside `read_amount`, since the units never mix.
#[tactic(auto, unfolding(crate::proofs::Readings::rows_open))]
pub fn read_months(s: &[u8]) -> Result<MonthTenths, Refusal>
    ensures { reading_said (λ m. m.0) result ≡ read_months s.now }
{
    Ok(MonthTenths(read_number(s, MONTHS)?))
}

// 19: the lowest field at which a condition is broken.
#[tactic(auto, using(crate::proofs::Findings::at19), unfolding(crate::proofs::Findings::named, conditions::specs::Broken::broken_field))]
fn conditions_found(cells: Cells, k: u32) -> Result<(), Breach>
    ensures { found_said result ≡ ask_conditions 19 condition_order k (cells_of cells.entry) }
{
    match conditions::broken_field(cells, k) {
        Some(field) => Err(Refusal::Disagrees.at(field)),
        None => Ok(()),
    }
}

// 13 to 18 and 26 field by field, lowest field first, then 19.
pub fn contents_found(
    cells: Cells,
    name: &[u8],
    rows: &[u8; layout::ROW_BYTES],
    k: u32,
) -> Result<(), Breach>
    ensures { found_said result ≡ contents_found k name.now (rows_in rows.now k) (cells_of cells.entry) }
{
    for i in 0..layout::field_count(rows, k).min(cells.places.count) {
        let field = i + 1;
        if let Err(refusal) = field_rule(name, cells.field(field), layout::row_at(rows, k, i)) {
            // `as`: no From takes a usize to a u32, and this is at most 15
            return Err(refusal.at(field as u32));
        }
    }
    conditions_found(cells, k)
}
