// What a kind of record is, by its number alone.
#![tactic(auto)]

ghost use Rattle.std.specs.Prelude.{◌≡◌};
ghost use Rattle.dirf.specs.Kinds.{is_later, opens_nothing, stands_once};
ghost use Rattle.dirf.specs.Tree.{block_of, suits as suits_of};
ghost use Rattle.dirf.specs.Tables.{first_amount, amount_count};
ghost use Rattle.kinds.specs.Kinds.{month_count};

use records::*;

// The kinds are numbered from 1, and 0 is none.
pub const KINDS: usize = 74;

// Four numbers and no struct: it answers for every u32, here and in `may_hold` of layout.
// Where the table cannot say it: below an IDREC the block is asked, and an ESPA stands below the INFPA of a BPFDEC.
#[tactic(auto, using(std::proofs::lemmas::Bool::Decides::nat_tests), unfolding(dirf::specs::Tree::suits))]
pub fn suits(declarant: u32, holder: u32, outer: u32, kind: u32) -> bool
    ensures { result ≡ suits_of declarant holder outer kind }
{
    match holder {
        IDREC => block_of(declarant, kind) == outer,
        INFPA => kind != ESPA || outer == BPFDEC,
        _ => true,
    }
}

// What an IDREC must belong to for a beneficiary to stand below it; 0 for no block, as the definition `block_of` has it.
#[tactic(auto, using(crate::proofs::Ranges::blocks))]
fn block_of(d: u32, k: u32) -> u32
    ensures { result ≡ block_of d k }
{
    match k {
        BPFDEC | BPJDEC => d,
        BPFFCI | BPJFCI => FCI,
        BPFPROC | BPJPROC => PROC,
        BPFRRA => RRA,
        _ => 0,
    }
}

#[tactic(auto, using(crate::proofs::Ranges::later_ones))]
pub fn is_later(k: u32) -> bool
    ensures { result ≡ is_later k }
{
    matches!(k, VPEIM..=RISEN | RPDE..=INF)
}

// Whether a kind stands at most once under its parent: a value record with no key.
#[tactic(auto, using(crate::proofs::Ranges::once))]
pub fn stands_once(k: u32) -> bool
    ensures { result ≡ stands_once k }
{
    matches!(k, RTRT..=ESDJ | RTPP..=ESEP | RTPA..=RIO | RIRSR | DAJUD | QTMESES | RISCP)
}

// Whether nothing ever stands below a record of this kind: RTPSE and RDTPSE have a key.
#[tactic(auto, using(crate::proofs::Ranges::nothing))]
pub fn opens_nothing(k: u32) -> bool
    ensures { result ≡ opens_nothing k }
{
    stands_once(k) || matches!(k, RTPSE | RDTPSE)
}

// The amounts of a value record stand one after another. The field of the first: that of RTPSE and RDTPSE stands behind the provider.
#[tactic(auto, using(crate::proofs::Ranges::firsts))]
pub fn first_amount(k: u32) -> usize
    ensures { result ≡ first_amount k }
{
    if matches!(k, RTPSE | RDTPSE) { 4 } else { 2 }
}

// How many there are, 0 where there is no total.
#[tactic(auto, using(crate::proofs::Ranges::counts))]
pub fn amount_count(k: u32) -> usize
    ensures { result ≡ amount_count k }
{
    match k {
        RIL96..=RIO | RIRSR => 1,
        RTPSE | RDTPSE => 2,
        // its months are no money
        QTMESES => 0,
        _ => month_count(k),
    }
}

// Of any other: the twelve months and the thirteenth of a value record.
#[tactic(auto, unfolding(crate::specs::Kinds::month_count))]
fn month_count(k: u32) -> usize
    ensures { result ≡ month_count k }
{
    if stands_once(k) { 13 } else { 0 }
}
