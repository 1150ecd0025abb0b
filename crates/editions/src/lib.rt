// The two editions that are taken, and which one a file has: line 1, right or wrong, says it.
#![tactic(auto)]

ghost use Rattle.std.specs.Prelude.{◌≡◌};
ghost use Rattle.dirf.specs.Editions.{line1, edition_name_of};
ghost use Rattle.editions.specs.Editions.{edition_says};
ghost use Rattle.editions.specs.Ends.{IsFirstEnd};

// The edition of 2025, the older one, and no third.
#[derive(Clone, Copy)]
pub enum Edition {
    Of2025,
    Of2022,
}

// Where the first CR LF stands.
fn first_end(s: &[u8]) -> Option<usize>
    ensures { IsFirstEnd s.now result }
{
    s.windows(2).position(|two| two == b"\r\n".as_slice())
}

// Line 1, right or wrong: what stands before the first CR LF, or all that there is.
#[tactic(auto, using(crate::proofs::Ends::first_at, crate::proofs::Ends::first_all))]
fn first(s: &[u8]) -> &[u8]
    ensures { result.now ≡ line1 s.now }
{
    match first_end(s) {
        Some(end) => &s[..end],
        None => s,
    }
}

// Field 6 of line 1 picks it.
#[tactic(auto, using(crate::proofs::Same::same_is), unfolding(dirf::specs::Editions::edition_name_of, dirf::specs::FieldReader::field_of))]
pub fn edition_of(file: &[u8]) -> Edition
    ensures { edition_says result ≡ edition_name_of file.now }
{
    if fields::field(first(file), 6) == b"XJFSFHB".as_slice() {
        Edition::Of2022
    } else {
        Edition::Of2025
    }
}
