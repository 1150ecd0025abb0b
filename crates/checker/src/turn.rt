// One line: document 01's order of numbers, part by part. A step refuses, or calls the next.
ghost use Rattle.std.specs.Prelude.{◌≡◌, ◌≤◌, ◌<◌};
ghost use Rattle.dirf.specs.Limits.{lines_limit};
ghost use Rattle.dirf.specs.Theorems.Belongs.{deepest};
ghost use Rattle.kinds.specs.Kinds.{kinds};
ghost use Rattle.refusals.specs.Numbers.{number_for, found_said};
ghost use Rattle.editions.specs.Editions.{edition_said};
ghost use Rattle.checker.specs.State.{Near, Safe};
ghost use Rattle.checker.specs.Turn.{refused_at, stepped, looked_found, entry_of, Fits, filled_found, record_of};
ghost use Rattle.checker.specs.Turn.{by_tables, read_step, record_step, line_step, turn_of};

use crate::state::{Last, State};
use crate::{Answer, lines, state};
use editions::Edition;
use fields::{Cells, Place};
use layout::{COLUMNS, HOLDERS, ROW_BYTES};
use refusals::{Breach, Refusal};

// Document 01: "At most 65,536 lines."
const LINES: u32 = 65536;

// An entry of the record table.
#[derive(Clone, Copy)]
pub(crate) struct Entry {
    pub(crate) kind: u32,
    pub(crate) start: u32,
    pub(crate) len: u32,
    pub(crate) parent: u32,
}

// A line read as a record: its kind, how many open records stand outside it, its length, and where fields 2 and 3 stand in it. Kind 0
// where field 1 is no identifier, and no Option: where it would stand is asked before 9 is, and the definition `record_of` has 0.
#[derive(Clone, Copy)]
pub(crate) struct Record {
    pub(crate) kind: u32,
    pub(crate) outer: usize,
    pub(crate) len: usize,
    pub(crate) second: Place,
    pub(crate) third: Place,
}

// A refusal after so many lines.
pub(crate) fn refused(count: u32, breach: Breach) -> Answer
    requires { count ≤ lines_limit }
    ensures { result ≡ refused_at count (number_for breach.refusal) breach.field }
{
    Answer {
        number: breach.refusal.number(),
        line: count + 1,
        field: breach.field,
        entries: count,
    }
}

// 21 and 20
#[tactic(auto, unfolding(crate::specs::Turn::looked_found))]
pub(crate) fn looked(file: &[u8], st: State, r: Record, last: Last) -> Result<(), Breach>
    ensures { found_said result ≡ looked_found file.now st r last }
{
    let line = fields::part(file, st.at, r.len);
    let second = fields::part(line, r.second.start, r.second.len);
    let third = fields::part(line, r.third.start, r.third.len);
    let parent = state::above(st.path.opened, r.outer).line;
    state::look_found(file, last, r.kind, parent, second, third)
}

// The entry of a record that is taken.
pub(crate) fn entry_of(st: State, r: Record) -> Entry
    requires { Fits st r }
    ensures { result ≡ entry_of st r }
{
    Entry {
        kind: r.kind,
        start: st.at as u32,
        len: r.len as u32,
        parent: state::above(st.path.opened, r.outer).line,
    }
}

// The tables of an edition that the check of a file is lent: the rows, and what may stand below what.
#[derive(Clone, Copy)]
pub(crate) struct Tables<'a> {
    pub(crate) edition: Edition,
    pub(crate) rows: &'a [u8; ROW_BYTES],
    pub(crate) below: &'a [[u8; COLUMNS]; HOLDERS],
}

impl<'a> Tables<'a> {
    // 11, then 13 to 18 and 26 by field, then 19. The kind was found by field 1, so that is its identifier.
    #[tactic(auto, using(std::proofs::lemmas::Bool::Decides::nat_tests), unfolding(crate::proofs::Opens::fill_opens))]
    fn filled_found(self, cells: Cells, k: u32) -> Result<(), Breach>
        ensures { found_said result ≡ filled_found self.entry.rows.now cells.entry.bytes.now cells.entry.places.now k }
    {
        if cells.places.count != layout::field_count(self.rows, k) {
            return Err(Breach::from(Refusal::WrongFieldCount));
        }
        let name = cells.places.first[0];
        rules::contents_found(
            cells,
            fields::part(cells.bytes, name.start, name.len),
            self.rows,
            k,
        )
    }

    // The line as a record: its kind by its identifier, and its place by its kind.
    fn record_of(self, cells: Cells, st: State) -> Record
        ensures { (result
            ≡ record_of (edition_said self.entry.edition) self.entry.below.now cells.entry.bytes.now st cells.entry.places.now)
            × ((result.kind < kinds) × (result.outer ≤ st.path.depth)) }
    {
        let line = cells.bytes;
        let k = identifiers::kind_of(self.edition, fields::field(line, 1)).unwrap_or(0);
        Record {
            kind: k,
            outer: state::held_at(self.below, st, k),
            len: line.len(),
            second: cells.places.first[1],
            third: cells.places.first[2],
        }
    }

    // 9, 10 and 12, then 11, 13 to 19 and 26
    #[tactic(auto, unfolding(crate::specs::Turn::read_step, crate::specs::Turn::found_step))]
    fn read(self, cells: Cells, st: State, r: Record) -> Result<Record, Breach>
        ensures { stepped st result ≡ read_step self.entry.rows.now cells.entry.bytes.now st cells.entry.places.now r }
    {
        state::place_found(st, r.kind, r.outer)?;
        self.filled_found(cells, r.kind)?;
        Ok(r)
    }

    // 8
    #[tactic(auto, unfolding(crate::specs::Turn::record_step))]
    fn recorded(self, cells: Cells, st: State) -> Result<Record, Breach>
        ensures { stepped st result ≡ by_tables record_step self.entry cells.entry.bytes.now st cells.entry.places.now }
    {
        if !lines::ends_in_bar(cells.bytes) {
            return Err(Breach::from(Refusal::NoLastBar));
        }
        let r = self.record_of(cells, st);
        self.read(cells, st, r)
    }

    // 4, 5 and 6
    fn lined(self, file: &[u8], st: State) -> Result<Record, Breach>
        ensures { stepped st result ≡ by_tables line_step self.entry file.now st }
    {
        let rest = lines::tail(file, st.at);
        let scanned = fields::scan(rest);
        lines::number_at(rest, scanned.len)?;
        let cells = Cells {
            bytes: fields::part(rest, 0, scanned.len),
            places: &scanned.places,
        };
        self.recorded(cells, st)
    }

    // The end, 1, 2 and 3. A record to go on with, or the answer that ends the check: acceptance is one too, so Err here is no refusal.
    #[tactic(auto, using(std::proofs::lemmas::Bool::Decides::nat_tests), unfolding(crate::specs::Turn::turn_of))]
    pub(crate) fn turn(self, file: &[u8], st: State) -> Result<Record, Answer>
        requires { Near st }
        ensures { result ≡ by_tables turn_of self.entry file.now st }
    {
        let n = st.count;
        if file.len() <= st.at {
            if st.done {
                return Err(Answer {
                    number: 0,
                    line: n,
                    field: 0,
                    entries: n,
                });
            }
            return Err(refused(n, Breach::from(Refusal::NotClosed)));
        }
        if st.done {
            return Err(refused(n, Breach::from(Refusal::GoesOn)));
        }
        if LINES <= n {
            return Err(refused(n, Breach::from(Refusal::TooManyLines)));
        }
        self.lined(file, st).map_err(|breach| refused(n, breach))
    }
}
