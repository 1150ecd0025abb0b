// What the records so far come to, and the rules that look back at them: 12, 21 and 20. A record is given as its kind and its key's
// fields, by themselves and in no `Record`, since none of these asks the rest of it; of an earlier one is known where its line stands in a
// text.
ghost use Rattle.std.specs.Prelude.{◌≡◌, ◌≤◌};
ghost use Rattle.dirf.specs.Limits.{line_limit};
ghost use Rattle.dirf.specs.Theorems.Belongs.{deepest};
ghost use Rattle.refusals.specs.Numbers.{found_said};
ghost use Rattle.checker.specs.State.{start_state, above as above_of, held_in, held_at, order_at, below_on, stands_on, place_found};
ghost use Rattle.checker.specs.State.{start_past, repeated_on, key_on, look_found, declarant_of, path_after, Safe, state_after};

use kinds::KINDS;
use layout::{COLUMNS, HOLDERS};
use records::*;
use refusals::{Breach, Refusal};

// How deep records stand open: the declarant, a block, an IDREC, a beneficiary, an INFPC or INFPA.
pub(crate) const DEPTH: usize = 5;

// Document 01: "Lines 1, 2, 3 are Dirf, RESPO and one of DECPF or DECPJ."
const OPENING_LINES: u32 = 3;

// A record that stands open, by its line and its kind.
#[derive(Clone, Copy)]
pub(crate) struct Open {
    pub(crate) line: u32,
    pub(crate) kind: u32,
}

// No Option: a record that belongs to nothing has parent 0 in the table, and may_hold takes kind 0. So has the declarant before line 3.
const NO_RECORD: Open = Open { line: 0, kind: 0 };

// No heap, so the open records stand in an array, and beside it how many they are.
// The open records, outermost first, and how many they are.
#[derive(Clone, Copy)]
pub(crate) struct Path {
    pub(crate) depth: usize,
    pub(crate) opened: [Open; DEPTH],
}

// No Option for a kind not seen: under is 0 then, the parent of lines that have no key and may not be repeated.
// The parent's line under which a kind stood last, and where that line of it stands. Nothing of it is ever cleared.
#[derive(Clone, Copy)]
pub(crate) struct Last {
    pub(crate) under: u32,
    pub(crate) start: u32,
    pub(crate) len: u32,
}

// Lines read, where the next begins, whether the last was FIMDirf, the declarant's kind, and the open records. What is remembered by
// kind goes beside it, since it is looked at once a line and the state goes through every step.
#[derive(Clone, Copy)]
pub(crate) struct State {
    pub(crate) count: u32,
    pub(crate) at: usize,
    pub(crate) done: bool,
    pub(crate) declarant: u32,
    pub(crate) path: Path,
}

#[tactic(auto, unfolding(crate::specs::State::start_state))]
pub(crate) fn start() -> State
    ensures { result ≡ start_state }
{
    State {
        count: 0,
        at: 0,
        done: false,
        declarant: 0,
        path: Path {
            depth: 0,
            opened: [NO_RECORD; DEPTH],
        },
    }
}

// What is remembered of each kind, before the first record.
#[tactic(auto, unfolding(crate::specs::State::start_past))]
pub(crate) fn nothing() -> [Last; KINDS]
    ensures { result ≡ start_past }
{
    [Last {
        under: 0,
        start: 0,
        len: 0,
    }; KINDS]
}

// What open record j belongs to.
pub(crate) fn above(opened: [Open; DEPTH], j: usize) -> Open
    ensures { result ≡ above_of opened j }
{
    if j == 0 {
        return NO_RECORD;
    }
    if DEPTH < j {
        return NO_RECORD;
    }
    opened[j - 1]
}

// How many open records stay open for a record of a kind: those down to the innermost that may hold it.
fn held_in(below: &[[u8; COLUMNS]; HOLDERS], declarant: u32, path: Path, k: u32) -> usize
    ensures { (result ≡ held_in below.now declarant path.opened k path.depth) × (result ≤ path.depth) }
{
    let opened = path.opened;
    for i in (0..path.depth).rev() {
        let holder = above(opened, i + 1);
        if layout::may_hold(below, declarant, holder.kind, above(opened, i).kind, k) {
            return i + 1;
        }
    }
    0
}

// The same; the opening lines belong to nothing.
#[tactic(auto, using(std::proofs::lemmas::Bool::Decides::nat_tests), unfolding(crate::specs::State::held_at, dirf::specs::Tree::opening))]
pub(crate) fn held_at(below: &[[u8; COLUMNS]; HOLDERS], st: State, k: u32) -> usize
    ensures { (result ≡ held_at below.now st k) × (result ≤ st.path.depth) }
{
    if st.count < OPENING_LINES {
        return 0;
    }
    held_in(below, st.declarant, st.path, k)
}

// Not before the record that opened last there: after an INFPC or INFPA any, after a PSE none.
#[tactic(auto, using(std::proofs::lemmas::Bool::Decides::nat_tests), unfolding(crate::proofs::Opens::order_opens))]
fn order_at(path: Path, k: u32, d: usize) -> bool
    ensures { result ≡ order_at path k d }
{
    if path.depth <= d {
        return true;
    }
    let last = above(path.opened, d + 1).kind;
    match last {
        INFPC | INFPA => true,
        PSE => false,
        _ => last <= k,
    }
}

// From line 4 on.
#[tactic(auto, using(std::proofs::lemmas::Bool::Decides::nat_tests), unfolding(crate::specs::State::below_on))]
fn stands_below(path: Path, k: u32, d: usize) -> bool
    ensures { result ≡ below_on path k d }
{
    k == FIMDIRF || 0 < d && order_at(path, k, d)
}

// May a record of kind k stand here?
#[tactic(auto, using(std::proofs::lemmas::Bool::Decides::nat_tests), unfolding(crate::proofs::Opens::stands_opens))]
fn stands(st: State, k: u32, d: usize) -> bool
    ensures { result ≡ stands_on st k d }
{
    match st.count {
        0 => k == DIRF,
        1 => k == RESPO,
        2 => k == DECPF || k == DECPJ,
        _ => stands_below(st.path, k, d),
    }
}

// 9, 10 and 12.
#[tactic(auto, using(std::proofs::lemmas::Bool::Decides::nat_tests), unfolding(crate::proofs::Opens::place_opens))]
pub(crate) fn place_found(st: State, k: u32, d: usize) -> Result<(), Breach>
    ensures { found_said result ≡ place_found st k d }
{
    if k == 0 {
        return Err(Refusal::UnknownRecord.at(1));
    }
    if kinds::is_later(k) {
        return Err(Refusal::LeftForLater.at(1));
    }
    if !stands(st, k, d) {
        return Err(Refusal::WrongPlace.at(1));
    }
    Ok(())
}

// 21, of a record below line p.
#[tactic(auto, using(std::proofs::lemmas::Bool::Decides::nat_tests), unfolding(crate::proofs::Opens::repeated_opens))]
fn repeated(last: Last, k: u32, p: u32) -> bool
    ensures { result ≡ repeated_on last k p }
{
    kinds::stands_once(k) && last.under == p
}

// No struct of the six: look_found takes them for this one alone, and repeated asks three.
// 20, of a record below line p with these fields 2 and 3.
#[tactic(auto, using(std::proofs::lemmas::Bool::Decides::nat_tests), unfolding(crate::proofs::Opens::key_opens))]
fn key_bad(text: &[u8], last: Last, k: u32, p: u32, second: &[u8], third: &[u8]) -> bool
    ensures { result ≡ key_on text.now last k p second.now third.now }
{
    if fields::key_count(k) == 0 || last.under != p {
        return false;
    }
    let line = fields::part(text, last.start as usize, last.len as usize);
    !fields::key_less(k, line, second, third)
}

// 21 and 20.
#[tactic(auto, unfolding(crate::specs::State::look_found, dirf::specs::Rules::given, dirf::specs::Rules::or_else))]
pub(crate) fn look_found(
    text: &[u8],
    last: Last,
    k: u32,
    p: u32,
    second: &[u8],
    third: &[u8],
) -> Result<(), Breach>
    ensures { found_said result ≡ look_found text.now last k p second.now third.now }
{
    if repeated(last, k, p) {
        return Err(Refusal::Repeated.at(1));
    }
    if key_bad(text, last, k, p, second, third) {
        return Err(Refusal::KeyNotGreater.at(2));
    }
    Ok(())
}

#[tactic(auto, using(std::proofs::lemmas::Bool::Decides::nat_tests), unfolding(crate::specs::State::declarant_of))]
fn declarant_of(st: State, k: u32) -> u32
    ensures { result ≡ declarant_of st k }
{
    if st.count == 2 {
        return k;
    }
    st.declarant
}

// Every record closes what was open below its parent, and opens there, unless nothing ever stands below its kind.
#[tactic(auto, using(std::proofs::lemmas::List::set_past), unfolding(crate::specs::State::path_after))]
fn path_after(path: Path, k: u32, d: usize, n: u32) -> Path
    requires { d ≤ deepest }
    ensures { result ≡ path_after path k d n }
{
    let mut p = path;
    p.depth = d;
    if kinds::opens_nothing(k) {
        return p;
    }
    p.depth = d + 1;
    if DEPTH <= d {
        return p;
    }
    p.opened[d] = Open { line: n, kind: k };
    p
}

// The state after a line that was taken.
pub(crate) fn state_after(st: State, k: u32, d: usize, len: usize) -> State
    requires { (d ≤ deepest) × (Safe st × (len ≤ line_limit)) }
    ensures { result ≡ state_after st k d len }
{
    let n = st.count + 1;
    State {
        count: n,
        at: st.at + len + 2,
        done: k == FIMDIRF,
        declarant: declarant_of(st, k),
        path: path_after(st.path, k, d, n),
    }
}
