// Which record a line is, by its identifier, in the line itself: its length, its first byte, where several begin alike the third and
// the last, and then all of it against the one identifier that is left.
#![tactic(auto)]

ghost use Rattle.std.specs.Prelude.{◌≡◌, ◌<◌, length, get_or};
ghost use Rattle.dirf.specs.Kinds.{names2025};
ghost use Rattle.dirf.specs.Edition.{kind_in, kind_of};
ghost use Rattle.editions.specs.Editions.{edition_said};
ghost use Rattle.identifiers.specs.Found.{kind_found};
ghost use Rattle.identifiers.specs.Left.{Begins, Left};

use editions::Edition;
use records::*;

// Its kind, if this is the one identifier that is left. Not `==`, whose code is one for all lengths and took 14 instructions more.
fn only(s: &[u8], name: &[u8], k: u32) -> Option<u32>
    requires left { Left name.now k s.now }
    requires there { 0 < k }
    ensures { result ≡ kind_found (kind_in names2025 s.now) }
{
    s.starts_with(name).then_some(k)
}

// A function a length, and a function a letter: each match has other bytes and texts, which no size or constant tells apart. That a text
// has its length and begins with its letter is one word, `Begins`; an array would say the length and leave the letter to the clause.
fn three_r(s: &[u8]) -> Option<u32>
    requires { Begins 3 "R" s.now }
    ensures { result ≡ kind_found (kind_in names2025 s.now) }
{
    match s[2] {
        b'O' => only(s, b"RIO", RIO),
        _ => only(s, b"RRA", RRA),
    }
}

#[tactic(auto, using(crate::proofs::Others::of_three))]
fn of_three(s: &[u8]) -> Option<u32>
    requires { length s.now ≡ 3 }
    ensures { result ≡ kind_found (kind_in names2025 s.now) }
{
    match s[0] {
        b'F' => only(s, b"FCI", FCI),
        b'I' => only(s, b"INF", INF),
        b'P' => only(s, b"PSE", PSE),
        b'R' => three_r(s),
        b'S' => only(s, b"SCP", SCP),
        _ => None,
    }
}

fn four_c(s: &[u8]) -> Option<u32>
    requires { Begins 4 "C" s.now }
    ensures { result ≡ kind_found (kind_in names2025 s.now) }
{
    match s[3] {
        b'C' => only(s, b"CJAC", CJAC),
        _ => only(s, b"CJAA", CJAA),
    }
}

fn four_e(s: &[u8]) -> Option<u32>
    requires { Begins 4 "E" s.now }
    ensures { result ≡ kind_found (kind_in names2025 s.now) }
{
    match s[2] {
        b'D' => match s[3] {
            b'J' => only(s, b"ESDJ", ESDJ),
            b'P' => only(s, b"ESDP", ESDP),
            _ => only(s, b"ESDS", ESDS),
        },
        b'E' => only(s, b"ESEP", ESEP),
        b'F' => only(s, b"ESFA", ESFA),
        b'I' => only(s, b"ESIR", ESIR),
        b'P' => match s[3] {
            b'A' => only(s, b"ESPA", ESPA),
            b'O' => only(s, b"ESPO", ESPO),
            _ => only(s, b"ESPP", ESPP),
        },
        b'R' => only(s, b"ESRT", ESRT),
        _ => only(s, b"ESSP", ESSP),
    }
}

fn four_r(s: &[u8]) -> Option<u32>
    requires { Begins 4 "R" s.now }
    ensures { result ≡ kind_found (kind_in names2025 s.now) }
{
    match s[2] {
        b'A' => only(s, b"RIAP", RIAP),
        b'D' => match s[3] {
            b'E' => only(s, b"RPDE", RPDE),
            b'P' => only(s, b"RTDP", RTDP),
            _ => only(s, b"RTDS", RTDS),
        },
        b'E' => only(s, b"RTEP", RTEP),
        b'F' => only(s, b"RTFA", RTFA),
        b'P' => match s[3] {
            b'A' => only(s, b"RTPA", RTPA),
            b'O' => only(s, b"RTPO", RTPO),
            _ => only(s, b"RTPP", RTPP),
        },
        b'R' => only(s, b"RTRT", RTRT),
        _ => only(s, b"RTSP", RTSP),
    }
}

#[tactic(auto, using(crate::proofs::Others::of_four))]
fn of_four(s: &[u8]) -> Option<u32>
    requires { length s.now ≡ 4 }
    ensures { result ≡ kind_found (kind_in names2025 s.now) }
{
    match s[0] {
        b'C' => four_c(s),
        b'D' => only(s, b"Dirf", DIRF),
        b'E' => four_e(s),
        b'O' => only(s, b"OPSE", OPSE),
        b'P' => only(s, b"PROC", PROC),
        b'R' => four_r(s),
        b'T' => only(s, b"TPSE", TPSE),
        _ => None,
    }
}

fn five_d(s: &[u8]) -> Option<u32>
    requires { Begins 5 "D" s.now }
    ensures { result ≡ kind_found (kind_in names2025 s.now) }
{
    match s[4] {
        b'D' => only(s, b"DAJUD", DAJUD),
        b'E' => only(s, b"DTPSE", DTPSE),
        b'F' => only(s, b"DECPF", DECPF),
        _ => only(s, b"DECPJ", DECPJ),
    }
}

fn five_i(s: &[u8]) -> Option<u32>
    requires { Begins 5 "I" s.now }
    ensures { result ≡ kind_found (kind_in names2025 s.now) }
{
    match s[2] {
        b'R' => only(s, b"IDREC", IDREC),
        _ => match s[4] {
            b'A' => only(s, b"INFPA", INFPA),
            _ => only(s, b"INFPC", INFPC),
        },
    }
}

// The third byte is before R.
fn five_r_to_q(s: &[u8]) -> Option<u32>
    requires { Begins 5 "R" s.now × (get_or s.now 2 0 < 82) }
    ensures { result ≡ kind_found (kind_in names2025 s.now) }
{
    match s[2] {
        b'B' => only(s, b"RIBMR", RIBMR),
        b'C' => only(s, b"RICAP", RICAP),
        b'D' => only(s, b"RIDAC", RIDAC),
        b'I' => match s[4] {
            b'F' => only(s, b"RTIRF", RTIRF),
            _ => only(s, b"RIIRP", RIIRP),
        },
        b'M' => match s[4] {
            b'G' => only(s, b"RIMOG", RIMOG),
            _ => only(s, b"RIMUN", RIMUN),
        },
        b'P' => match s[4] {
            b'5' => only(s, b"RIP65", RIP65),
            b'E' => only(s, b"RTPSE", RTPSE),
            _ => only(s, b"RIPTS", RIPTS),
        },
        _ => only(s, b"RIL96", RIL96),
    }
}

fn five_r(s: &[u8]) -> Option<u32>
    requires { Begins 5 "R" s.now }
    ensures { result ≡ kind_found (kind_in names2025 s.now) }
{
    match s[2] {
        0..=b'Q' => five_r_to_q(s),
        b'S' => match s[4] {
            b'N' => only(s, b"RISEN", RISEN),
            b'O' => only(s, b"RESPO", RESPO),
            _ => only(s, b"RISCP", RISCP),
        },
        _ => match s[4] {
            b'C' => only(s, b"RIRPC", RIRPC),
            _ => only(s, b"RIRSR", RIRSR),
        },
    }
}

fn five_v(s: &[u8]) -> Option<u32>
    requires { Begins 5 "V" s.now }
    ensures { result ≡ kind_found (kind_in names2025 s.now) }
{
    match s[2] {
        b'E' => only(s, b"VPEIM", VPEIM),
        _ => only(s, b"VRPDE", VRPDE),
    }
}

#[tactic(auto, using(crate::proofs::Others::of_five))]
fn of_five(s: &[u8]) -> Option<u32>
    requires { length s.now ≡ 5 }
    ensures { result ≡ kind_found (kind_in names2025 s.now) }
{
    match s[0] {
        b'B' => only(s, b"BRPDE", BRPDE),
        b'D' => five_d(s),
        b'I' => five_i(s),
        b'R' => five_r(s),
        b'V' => five_v(s),
        _ => None,
    }
}

fn six_b(s: &[u8]) -> Option<u32>
    requires { Begins 6 "B" s.now }
    ensures { result ≡ kind_found (kind_in names2025 s.now) }
{
    match s[2] {
        b'F' => match s[5] {
            b'A' => only(s, b"BPFRRA", BPFRRA),
            b'C' => only(s, b"BPFDEC", BPFDEC),
            b'I' => only(s, b"BPFFCI", BPFFCI),
            _ => only(s, b"BPFSCP", BPFSCP),
        },
        _ => match s[5] {
            b'C' => only(s, b"BPJDEC", BPJDEC),
            b'I' => only(s, b"BPJFCI", BPJFCI),
            _ => only(s, b"BPJSCP", BPJSCP),
        },
    }
}

fn six_r(s: &[u8]) -> Option<u32>
    requires { Begins 6 "R" s.now }
    ensures { result ≡ kind_found (kind_in names2025 s.now) }
{
    match s[2] {
        b'J' => only(s, b"RIJMRE", RIJMRE),
        _ => only(s, b"RDTPSE", RDTPSE),
    }
}

#[tactic(auto, using(crate::proofs::Others::of_six))]
fn of_six(s: &[u8]) -> Option<u32>
    requires { length s.now ≡ 6 }
    ensures { result ≡ kind_found (kind_in names2025 s.now) }
{
    match s[0] {
        b'B' => six_b(s),
        b'R' => six_r(s),
        _ => None,
    }
}

fn seven_b(s: &[u8]) -> Option<u32>
    requires { Begins 7 "B" s.now }
    ensures { result ≡ kind_found (kind_in names2025 s.now) }
{
    match s[2] {
        b'F' => only(s, b"BPFPROC", BPFPROC),
        _ => only(s, b"BPJPROC", BPJPROC),
    }
}

#[tactic(auto, using(crate::proofs::Others::of_seven))]
fn of_seven(s: &[u8]) -> Option<u32>
    requires { length s.now ≡ 7 }
    ensures { result ≡ kind_found (kind_in names2025 s.now) }
{
    match s[0] {
        b'B' => seven_b(s),
        b'F' => only(s, b"FIMDirf", FIMDIRF),
        b'Q' => only(s, b"QTMESES", QTMESES),
        _ => None,
    }
}

// The kind in the edition of 2025, which has all identifiers.
#[tactic(auto, using(crate::proofs::Others::of_other_length))]
fn known(s: &[u8]) -> Option<u32>
    ensures { result ≡ kind_found (kind_in names2025 s.now) }
{
    match s.len() {
        3 => of_three(s),
        4 => of_four(s),
        5 => of_five(s),
        6 => of_six(s),
        7 => of_seven(s),
        _ => None,
    }
}

// The kind that an identifier names in an edition, if it names one.
#[tactic(auto, using(crate::proofs::Older::by_tests), unfolding(dirf::specs::Editions::edition_named, dirf::specs::Edition::edition_opens))]
pub fn kind_of(e: Edition, s: &[u8]) -> Option<u32>
    ensures { result ≡ kind_found (kind_of (edition_said e) s.now) }
{
    match (e, known(s)) {
        (Edition::Of2022, Some(RTDS | ESDS)) => None,
        (_, found) => found,
    }
}
