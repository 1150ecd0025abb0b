// The line writer, and the writers of amounts and month counts. A refusal leaves the output as it was.
#![tactic(auto)]

ghost use Rattle.std.specs.Prelude.{◌≡◌, [], ◌∷◌, ◌++◌, ◌+◌, ◌≤◌, ◌<◌, eqb, ltb, length, drop};
ghost use Rattle.std.proofs.lemmas.List.Edits.{sets};
ghost use Rattle.dirf.specs.Limits.{bar, largest};
ghost use Rattle.dirf.specs.Numbers.{decimal};
ghost use Rattle.dirf.specs.Written.{output_after};
ghost use Rattle.dirf.specs.Amounts.{write_number, write_amount, write_months};
ghost use Rattle.dirf.specs.LineWriter.{sum, cut, line_of, write_line};
ghost use Rattle.editions.specs.Editions.{edition_said};
ghost use Rattle.refusals.specs.Numbers.{number_said, found_said};
ghost use Rattle.writer.specs.Answers.{answered, number_answered, line_answered, misfit_of, contents_along, refusal_of};

use editions::Edition;
use fields::Cells;
use layout::{NAME_BYTES, ROW_BYTES};
use refusals::{Breach, Refusal};
use rules::{Centavos, MonthTenths};

// How many digits a number has, none for zero. They come out of the number by division: there is no sequence to go along.
fn count_digits(v: u64) -> usize
    ensures { result ≡ length (decimal 20 v) }
{
    let mut n = 0;
    let mut x = v;
    while 0 < x {
        n += 1;
        x /= 10;
    }
    n
}

// By hand: std prints into an output of its own, and this writes into a lent slice.
// The digits of a number, the last one first, at the beginning of an output.
fn put_digits(v: u64, n: usize, out: &mut [u8])
    requires { (n ≡ length (decimal 20 v)) × (n ≤ length out.old) }
    ensures { out.new ≡ decimal 20 v ++ drop n out.old }
{
    let mut x = v;
    for i in (0..n).rev() {
        // `as`: no From takes a u64 to a u8, and this is at most 9
        out[i] = b'0' + (x % 10) as u8;
        x /= 10;
    }
}

// A number of at most `size` digits, the largest of which is `limit`, so that no power is worked out; how many bytes it has.
fn write_number(v: u64, size: usize, limit: u64, out: &mut [u8]) -> Result<usize, Refusal>
    requires { (limit ≡ largest size) × (size ≤ 20) }
    ensures said { number_answered result ≡ answered (write_number size v (length out.old)) }
    ensures output { out.new ≡ output_after (write_number size v (length out.old)) out.old }
{
    if limit < v {
        return Err(Refusal::WrongSize);
    }
    let n = count_digits(v);
    if out.len() < n {
        return Err(Refusal::SmallOutput);
    }
    put_digits(v, n, out);
    Ok(n)
}

// An amount: 15 over the limit, then 24 for too little room; zero writes no byte.
#[tactic(auto, unfolding(dirf::specs::Amounts::write_amount))]
pub fn write_amount(v: Centavos, out: &mut [u8]) -> Result<usize, Refusal>
    ensures said { number_answered result ≡ answered (write_amount v.0 (length out.old)) }
    ensures output { out.new ≡ output_after (write_amount v.0 (length out.old)) out.old }
{
    write_number(v.0, 13, 9999999999999, out)
}

// A month count: 15 over the limit, then 24 for too little room; zero writes no byte. Beside `write_amount`, since the units never mix.
#[tactic(auto, unfolding(dirf::specs::Amounts::write_months))]
pub fn write_months(v: MonthTenths, out: &mut [u8]) -> Result<usize, Refusal>
    ensures said { number_answered result ≡ answered (write_months v.0 (length out.old)) }
    ensures output { out.new ≡ output_after (write_months v.0 (length out.old)) out.old }
{
    write_number(v.0, 4, 9999, out)
}

// Whether lengths add up to a total; they may add up past any integer.
fn add_up(lengths: &[usize], total: usize) -> bool
    ensures { result ≡ eqb (sum lengths.now) total }
{
    let mut left = total;
    for &n in lengths {
        let Some(rest) = left.checked_sub(n) else {
            return false;
        };
        left = rest;
    }
    left == 0
}

// A field's bytes and its bar, written at a place of the output; where the next one goes.
fn put_field(field: &[u8], out: &mut [u8], at: usize) -> usize
    requires { at + length field.now < length out.old }
    ensures { (result ≡ at + length field.now + 1)
        × (out.new ≡ sets out.old at (field.now ++ (bar ∷ []))) }
{
    let bar = at + field.len();
    out[at..bar].copy_from_slice(field);
    out[bar] = b'|';
    bar + 1
}

// The line with its CR LF, into an output that has the room.
fn put_line(contents: &[u8], lengths: &[usize], out: &mut [u8]) -> usize
    requires { (sum lengths.now ≡ length contents.now) × (length (line_of (cut lengths.now contents.now)) ≤ length out.old) }
    ensures { (result ≡ length (line_of (cut lengths.now contents.now)))
        × (out.new ≡ sets out.old 0 (line_of (cut lengths.now contents.now))) }
{
    let mut from = 0;
    let mut at = 0;
    for &n in lengths {
        at = put_field(fields::part(contents, from, n), out, at);
        from += n;
    }
    out[at] = b'\r';
    out[at + 1] = b'\n';
    at + 2
}

// What the line writer is asked for, with the tables of its edition.
#[derive(Clone, Copy)]
struct Asked<'a> {
    names: &'a [u8; NAME_BYTES],
    rows: &'a [u8; ROW_BYTES],
    kind: u32,
    contents: &'a [u8],
    lengths: &'a [usize],
}

impl<'a> Asked<'a> {
    // 22, 11 or 23, in that order.
    #[tactic(auto, using(std::proofs::lemmas::Bool::Decides::nat_tests), unfolding(crate::specs::Answers::misfit_of))]
    fn misfit(self) -> Result<(), Refusal>
        ensures { number_said result ≡ misfit_of self.entry }
    {
        if !layout::is_base(self.names, self.kind) {
            return Err(Refusal::NotWritten);
        }
        if self.lengths.len() != layout::field_count(self.rows, self.kind) {
            return Err(Refusal::WrongFieldCount);
        }
        if !add_up(self.lengths, self.contents.len()) {
            return Err(Refusal::LengthsOff);
        }
        Ok(())
    }

    // 13 to 18 and 26 by field, then 19, of what stands along the lengths.
    #[tactic(auto, unfolding(crate::specs::Answers::contents_along))]
    fn contents_refused(self) -> Result<(), Breach>
        ensures { found_said result ≡ contents_along self.entry }
    {
        let cells = Cells {
            bytes: self.contents,
            places: &fields::places_along(self.lengths),
        };
        let name = layout::name(self.names, self.kind);
        rules::contents_found(cells, name, self.rows, self.kind)
    }

    // The first refusal: 22, 11, 23, 13 to 18 and 26 by field, 19, 24.
    #[tactic(auto, using(refusals::proofs::Numbers::not_0), unfolding(crate::proofs::Refusals::refusal_opens))]
    fn refusal(self, room: usize) -> Result<(), Breach>
        ensures { found_said result ≡ refusal_of self.entry room }
    {
        self.misfit()?;
        self.contents_refused()?;
        if too_small(self.contents.len(), self.lengths.len(), room) {
            return Err(Breach::from(Refusal::SmallOutput));
        }
        Ok(())
    }
}

// 24: no room for the contents, a bar a field and CR LF. Step by step, since the sum may pass any integer.
#[tactic(auto, using(std::proofs::lemmas::Bool::Decides::nat_tests))]
fn too_small(bytes: usize, count: usize, room: usize) -> bool
    ensures { result ≡ ltb room (bytes + count + 2) }
{
    if room < bytes {
        return true;
    }
    let left = room - bytes;
    if left < 2 {
        return true;
    }
    left - 2 < count
}

// The line of a kind, in an edition, and the contents of its fields, one after another with their lengths: how many bytes it has; or the
// first refusal. Contents and lengths by themselves: the promise is of these two.
pub fn write_line(
    e: Edition,
    kind: u32,
    contents: &[u8],
    lengths: &[usize],
    out: &mut [u8],
) -> Result<usize, Breach>
    ensures said { line_answered result
        ≡ answered (write_line (edition_said e) kind contents.now lengths.now (length out.old)) }
    ensures output { out.new
        ≡ output_after (write_line (edition_said e) kind contents.now lengths.now (length out.old)) out.old }
{
    let asked = Asked {
        names: &layout::name_table(e),
        rows: &layout::row_table(e),
        kind,
        contents,
        lengths,
    };
    let found = asked.refusal(out.len());
    found?;
    Ok(put_line(contents, lengths, out))
}
