// The line that comes next: where it ends, and 4, 5 and 6.
ghost use Rattle.std.specs.Prelude.{◌≡◌, length, drop};
ghost use Rattle.dirf.specs.Bytes.{ends_with};
ghost use Rattle.dirf.specs.Limits.{bar};
ghost use Rattle.dirf.specs.Lines.{clean};
ghost use Rattle.refusals.specs.Numbers.{number_said};
ghost use Rattle.checker.specs.Lines.{end_of, number_at, after_line};

use refusals::Refusal;

// Document 01: "A line is 0 to 1,024 bytes followed by CR LF."
const LINE_BYTES: usize = 1024;

// What is left of a text from a place on.
pub(crate) fn tail(s: &[u8], start: usize) -> &[u8]
    ensures { result.now ≡ drop start s.now }
{
    fields::part(s, start, s.len())
}

// What ends a line: CR LF, or 5 or 6.
#[tactic(auto, using(crate::proofs::lines::NextLine::ended, std::proofs::lemmas::Bool::Decides::nat_tests))]
fn end_of(u: &[u8]) -> Result<(), Refusal>
    ensures { number_said result ≡ end_of u.now }
{
    match u {
        [b'\n', ..] => Err(Refusal::WrongLineEnd),
        [] | [_] => Err(Refusal::CutOffLine),
        [_, b'\n', ..] => Ok(()),
        _ => Err(Refusal::WrongLineEnd),
    }
}

// 4, 5 or 6 of the line at the front of a text, which has n bytes.
#[tactic(auto, using(crate::proofs::lines::NextLine::line_at), unfolding(crate::specs::Lines::number_at))]
pub(crate) fn number_at(s: &[u8], n: usize) -> Result<(), Refusal>
    requires { n ≡ length (clean s.now) }
    ensures { number_said result ≡ number_at s.now }
{
    if LINE_BYTES < n {
        return Err(Refusal::LongLine);
    }
    end_of(tail(s, n))
}

#[tactic(auto, using(crate::proofs::lines::NextLine::last_lem, std::proofs::lemmas::Bool::Decides::nat_tests))]
pub(crate) fn ends_in_bar(s: &[u8]) -> bool
    ensures { result ≡ ends_with bar s.now }
{
    matches!(s, [.., b'|'])
}

// What stands behind the line at the front of a text, and behind the two bytes that end it.
pub(crate) fn after_line(s: &[u8]) -> &[u8]
    ensures { result.now ≡ after_line s.now }
{
    let l = fields::scan(s);
    tail(tail(s, l.len), 2)
}
