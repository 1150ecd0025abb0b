// The totals by kind of value record: a line that is taken adds its amounts to the total of its kind.
ghost use Rattle.std.specs.Prelude.{◌≡◌, ◌+◌, ◌-◌, ◌^◌, ◌≤◌, ◌<◌, get_or};
ghost use Rattle.fields.specs.Places.{part_of};
ghost use Rattle.checker.specs.Totals.{totals_in, add_at, sum_of, line_sum, Summable, Addable};

use crate::lines;
use crate::turn::Record;
use kinds::KINDS;
use rules::Centavos;

// No line has been read. Past the last kind nothing is touched.
pub(crate) fn clear(totals: &mut [u64])
    ensures { totals.new ≡ totals_in (λ k. 0) totals.old }
{
    let lent = totals.len().min(KINDS);
    totals[..lent].fill(0);
}

// What a digit stands for.
fn digit(b: u8) -> u64
    requires { 48 ≤ b }
    ensures { result ≡ b - 48 }
{
    u64::from(b - b'0')
}

// By hand: std reads one text that is a number, and this goes once over fields and bars.
// The sum of the first n amounts of a text, each ended by its bar. They have kept the rules: each is digits, and the sum fits.
fn sum_of(s: &[u8], n: usize) -> Centavos
    requires { Summable n s.now }
    ensures { result.0 ≡ sum_of n s.now }
{
    if n == 0 {
        return Centavos(0);
    }
    let mut sum: u64 = 0;
    let mut one: u64 = 0;
    let mut left = n;
    for &b in s {
        if b == b'|' {
            sum += one;
            one = 0;
            left -= 1;
            // asked behind a bar alone, and not at each byte
            if left == 0 {
                return Centavos(sum);
            }
        } else {
            one = one * 10 + digit(b);
        }
    }
    Centavos(sum)
}

// The total of a kind with centavos more, where it is lent. Nothing else is ever added to a total.
fn add(totals: &mut [u64], k: u32, c: Centavos)
    requires { get_or totals.old k 0 + c.0 < 2 ^ 64 }
    ensures { totals.new ≡ add_at totals.old k c.0 }
{
    let i = k as usize;
    if i < totals.len() {
        totals[i] += c.0;
    }
}

// The record that is taken, whose line begins at a place of the file.
pub(crate) fn add_record(totals: &mut [u64], file: &[u8], at: usize, r: Record)
    requires { Addable totals.old r.kind (part_of file.now at r.len) }
    ensures { totals.new
        ≡ add_at totals.old r.kind (line_sum r.kind (part_of file.now at r.len)) }
{
    // a check without totals spends no more on a line
    if totals.is_empty() {
        return;
    }
    let n = kinds::amount_count(r.kind);
    if n == 0 {
        return;
    }
    let line = fields::part(file, at, r.len);
    if let Some(first) = fields::place_of(line, kinds::first_amount(r.kind)) {
        add(totals, r.kind, sum_of(lines::tail(line, first.start), n));
    }
}
