// The check of a file: one turn a line over a state by value.
#![tactic(auto)]

mod lines;
mod state;
mod totals;
mod turn;

ghost use Rattle.std.specs.Prelude.{◌≡◌, ◌+◌, ◌*◌, ◌/◌, ◌≤◌, ◌<◌, length, get_or};
ghost use Rattle.std.proofs.lemmas.List.Edits.{sets};
ghost use Rattle.dirf.specs.Limits.{lines_limit, numbers_an_entry};
ghost use Rattle.dirf.specs.Kinds.{DECPF};
ghost use Rattle.dirf.specs.Theorems.Belongs.{deepest};
ghost use Rattle.dirf.specs.Editions.{edition_of};
ghost use Rattle.dirf.specs.Check.{entry_numbers, answer_to};
ghost use Rattle.dirf.specs.Totals.{total_by, total_of};
ghost use Rattle.editions.specs.Editions.{edition_said};
ghost use Rattle.checker.specs.Lines.{third_kind};
ghost use Rattle.checker.specs.State.{no_open};
ghost use Rattle.checker.specs.Turn.{by_tables};
ghost use Rattle.checker.specs.Totals.{totals_in};
ghost use Rattle.checker.specs.Answers.{answer_of, table_after, entry_of_code, put_entry, put_last, put_lasts, SayAll, Judged};

use editions::Edition;
use records::DECPF;
use refusals::{Breach, Refusal};
use state::{DEPTH, Last, Open};
use turn::{Entry, Tables};

// Document 02, A6: "Room in refusal 7 is now five numbers an entry".
pub const NUMBERS_AN_ENTRY: usize = 5;

// 0, the last line, 0 on acceptance; else a number, a line and a field; and how many entries the table has. Numbers and no Result: C is
// given them as they stand, and acceptance has a line and entries too.
#[derive(Clone, Copy)]
pub struct Answer {
    pub number: u32,
    pub line: u32,
    pub field: u32,
    pub entries: u32,
}

// The numbers of an entry, in the table's order: its own line is the last of its group so far.
fn entry_numbers(e: Entry, own: u32) -> [u32; NUMBERS_AN_ENTRY]
    ensures { result ≡ entry_numbers (entry_of_code e) own }
{
    [e.kind, e.start, e.len, e.parent, own]
}

// The table is numbers and no entries: C lends it so.
// Numbers written from place i on.
fn put_numbers(table: &mut [u32], i: usize, row: &[u32])
    requires { i + length row.now ≤ length table.old }
    ensures { table.new ≡ sets table.old i row.now }
{
    table[i..i + row.len()].copy_from_slice(row);
}

// Entry n of the table, from 0, if the table holds it whole.
fn put_entry(table: &mut [u32], n: u32, row: &[u32])
    requires { (n ≤ lines_limit) × (length row.now ≡ numbers_an_entry) }
    ensures { table.new ≡ put_entry table.old n row.now }
{
    // `as`, here and in the other modules: no From takes a u32 to a usize or back, and what is kept in 32 bits fits
    let n = n as usize;
    if n < table.len() / NUMBERS_AN_ENTRY {
        put_numbers(table, NUMBERS_AN_ENTRY * n, row);
    }
}

// A line as the last one of the group of line n, if the table holds the entry of that whole.
fn put_last(table: &mut [u32], n: u32, own: u32)
    requires { 1 ≤ n }
    ensures { table.new ≡ put_last table.old n own }
{
    let n = n as usize;
    if n <= table.len() / NUMBERS_AN_ENTRY {
        table[NUMBERS_AN_ENTRY * n - 1] = own;
    }
}

// And so of each record above it, of which there are so many.
fn put_lasts(table: &mut [u32], opened: [Open; DEPTH], outer: usize, own: u32)
    requires { (outer ≤ deepest) × ((i : _) → i < outer → 1 ≤ (get_or opened i no_open).line) }
    ensures { table.new ≡ put_lasts table.old opened outer own }
{
    // a check without a table spends no more on it
    if table.len() < NUMBERS_AN_ENTRY {
        return;
    }
    for i in (0..outer).rev() {
        put_last(table, opened[i].line, own);
    }
}

// The kind of line 3, whatever stands there: the declarant's, whose list holds from line 4 on.
fn third_kind(e: Edition, file: &[u8]) -> u32
    ensures { result ≡ third_kind (edition_said e) file.now }
{
    let s = lines::after_line(lines::after_line(file));
    let l = fields::scan(s);
    identifiers::kind_of(e, fields::field(fields::part(s, 0, l.len), 1)).unwrap_or(0)
}

// Line by line, with tables that say the edition; entries go to the table where it holds them whole, and amounts to the totals.
fn walk(tables: Tables, file: &[u8], room: usize, table: &mut [u32], totals: &mut [u64]) -> Answer
    requires { by_tables SayAll tables file.now }
    ensures judged { Judged (edition_said tables.entry.edition) file.now room table.old table.new result }
    ensures totals { totals.new ≡ totals_in (total_by (edition_said tables.entry.edition) file.now room) totals.old }
{
    totals::clear(totals);
    let mut st = state::start();
    let mut past = state::nothing();
    // no for: it goes from state to state until there is an answer, and counts no index
    loop {
        let r = match tables.turn(file, st) {
            Ok(r) => r,
            Err(answer) => return answer,
        };
        let i = r.kind as usize;
        let found = turn::looked(file, st, r, past[i]);
        if let Err(breach) = found {
            return turn::refused(st.count, breach);
        }
        if room <= st.count as usize {
            return turn::refused(st.count, Breach::from(Refusal::FullTable));
        }
        let entry = turn::entry_of(st, r);
        let own = st.count + 1;
        put_entry(table, st.count, &entry_numbers(entry, own));
        put_lasts(table, st.path.opened, r.outer, own);
        // no From: this is its one use, and the parent has another name there
        past[i] = Last {
            under: entry.parent,
            start: entry.start,
            len: entry.len,
        };
        totals::add_record(totals, file, st.at, r);
        st = state::state_after(st, r.kind, r.outer, r.len);
    }
}

// What is lent goes down as it came: a struct of two &mut would be built and taken apart once.
// A file whose line 3 is a DECPF, and any other. Each makes its own tables: of two calls the compiler keeps one function, with its own
// stack.
fn walk_pf(e: Edition, file: &[u8], room: usize, table: &mut [u32], totals: &mut [u64]) -> Answer
    requires { third_kind (edition_said e) file.now ≡ DECPF }
    ensures judged { Judged (edition_said e) file.now room table.old table.new result }
    ensures totals { totals.new ≡ totals_in (total_by (edition_said e) file.now room) totals.old }
{
    let tables = Tables {
        edition: e,
        rows: &layout::row_table(e),
        below: &layout::pf_table(e),
    };
    walk(tables, file, room, table, totals)
}

fn walk_pj(e: Edition, file: &[u8], room: usize, table: &mut [u32], totals: &mut [u64]) -> Answer
    requires { third_kind (edition_said e) file.now ≡ DECPF → ⊥ }
    ensures judged { Judged (edition_said e) file.now room table.old table.new result }
    ensures totals { totals.new ≡ totals_in (total_by (edition_said e) file.now room) totals.old }
{
    let tables = Tables {
        edition: e,
        rows: &layout::row_table(e),
        below: &layout::pj_table(e),
    };
    walk(tables, file, room, table, totals)
}

// With the tables of the file's own edition, and that of the declarant alone of the two.
fn judged(file: &[u8], room: usize, table: &mut [u32], totals: &mut [u64]) -> Answer
    ensures judged { Judged (edition_of file.now) file.now room table.old table.new result }
    ensures totals { totals.new ≡ totals_in (total_by (edition_of file.now) file.now room) totals.old }
{
    let e = editions::edition_of(file);
    if third_kind(e, file) == DECPF {
        return walk_pf(e, file, room, table, totals);
    }
    walk_pj(e, file, room, table, totals)
}

// The check: acceptance with a record table, or the first breach with the entries before it.
pub fn check(file: &[u8], table: &mut [u32]) -> Answer
    ensures answer { result ≡ answer_of (answer_to file.now (length table.old / numbers_an_entry)) }
    ensures entries { table.new
        ≡ table_after (answer_to file.now (length table.old / numbers_an_entry)) table.old }
{
    check_totals(file, table, &mut [])
}

// The check with a room in entries and no table; a function of its own, since a room may be larger than any table.
pub fn check_room(file: &[u8], room: usize) -> Answer
    ensures { result ≡ answer_of (answer_to file.now room) }
{
    room_totals(file, room, &mut [])
}

// The check with totals beside the table: at place k that of kind k, of every line on acceptance, of those before the bad one on refusal.
pub fn check_totals(file: &[u8], table: &mut [u32], totals: &mut [u64]) -> Answer
    ensures answer { result ≡ answer_of (answer_to file.now (length table.old / numbers_an_entry)) }
    ensures entries { table.new
        ≡ table_after (answer_to file.now (length table.old / numbers_an_entry)) table.old }
    ensures totals { totals.new
        ≡ totals_in (total_of file.now (length table.old / numbers_an_entry)) totals.old }
{
    judged(file, table.len() / NUMBERS_AN_ENTRY, table, totals)
}

// The same with a room in entries and no table; a function of its own, since a room may be larger than any table.
pub fn room_totals(file: &[u8], room: usize, totals: &mut [u64]) -> Answer
    ensures answer { result ≡ answer_of (answer_to file.now room) }
    ensures totals { totals.new ≡ totals_in (total_of file.now room) totals.old }
{
    judged(file, room, &mut [], totals)
}
