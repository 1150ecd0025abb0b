// The check digits of a CPF and of a CNPJ: the public modulo 11 rule, over a list of weights.
#![tactic(auto)]

ghost use Rattle.std.specs.Prelude.{◌≡◌, ◌||◌, ◌≤◌, ◌<◌, ◌+◌, ◌-◌, ◌*◌, length, get_or, drop};
ghost use Rattle.dirf.specs.Digits.{weighted, check_digit, digit_right, digits_right, right_CPF, right_CNPJ};

// The weights of the second digit; those of the first are the same without the one in front.
const CPF: [u8; 10] = [11, 10, 9, 8, 7, 6, 5, 4, 3, 2];

const CNPJ: [u8; 13] = [6, 5, 4, 3, 2, 9, 8, 7, 6, 5, 4, 3, 2];

// A digit times its weight; a byte below the digits, which 14 keeps out of every field, counts nothing. `saturating_sub` took a third more.
fn times(weight: u8, b: u8) -> u16
    ensures { result ≡ weight * (b - 48) }
{
    if b < b'0' {
        0
    } else {
        u16::from(weight) * u16::from(b - b'0')
    }
}

// The bound of 13 stands in each clause, and no array has it: one less than N is a computed const argument, which Rattle has not.
// The sum of the digits, each times its weight.
#[tactic(auto, using(crate::proofs::Weighted::one_more, crate::proofs::Weighted::all_counted))]
fn weighted_sum(weights: &[u8], s: &[u8]) -> u32
    requires { (length weights.now ≤ 13) × (length weights.now ≤ length s.now) }
    ensures { result ≡ weighted weights.now s.now }
{
    let mut sum = 0;
    for (weight, b) in weights.iter().zip(s) {
        sum += u32::from(times(*weight, *b));
    }
    sum
}

// The digit that a sum gives, as it is written.
#[tactic(auto, using(std::proofs::lemmas::Bool::Decides::nat_tests), unfolding(dirf::specs::Digits::check_digit))]
fn check_digit(sum: u32) -> u8
    ensures { result ≡ 48 + check_digit sum }
{
    let rest = sum % 11;
    if rest < 2 {
        b'0'
    } else {
        // `as`: no From takes a u32 to a u8, and this is at most 9
        b'0' + (11 - rest) as u8
    }
}

// The digit behind those that have a weight is the one that they give.
#[tactic(auto, unfolding(dirf::specs::Digits::digit_right))]
fn digit_right(weights: &[u8], s: &[u8]) -> bool
    requires { (length weights.now ≤ 13) × (length weights.now < length s.now) }
    ensures { result ≡ digit_right weights.now s.now }
{
    s[weights.len()] == check_digit(weighted_sum(weights, s))
}

// Both digits, the second by all weights, the first without the one in front.
#[tactic(auto, using(std::proofs::lemmas::Bool::Decides::nat_tests, crate::proofs::Parts::in_parts))]
fn digits_right(weights: &[u8], s: &[u8]) -> bool
    requires { (1 ≤ length weights.now) × (length weights.now ≤ 13) }
    ensures { result ≡ digits_right (get_or weights.now 0 0) (drop 1 weights.now) s.now }
{
    s.len() == weights.len() + 1 && digit_right(&weights[1..], s) && digit_right(weights, s)
}

// Eleven digits, of which the last two are right.
pub fn right_cpf(s: &[u8]) -> bool
    ensures { result ≡ right_CPF s.now }
{
    digits_right(&CPF, s)
}

// Fourteen digits, of which the last two are right. Two names for one function over the weights: documents know the two numbers apart.
pub fn right_cnpj(s: &[u8]) -> bool
    ensures { result ≡ right_CNPJ s.now }
{
    digits_right(&CNPJ, s)
}

// One or the other. Not by the two functions above: each has one caller, or it stays a call and every field pays (docs/BENCH.md).
pub fn right_either(s: &[u8]) -> bool
    ensures { result ≡ (right_CPF s.now || right_CNPJ s.now) }
{
    digits_right(&CPF, s) || digits_right(&CNPJ, s)
}
