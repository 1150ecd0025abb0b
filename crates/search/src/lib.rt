// The search: one CPF under one IDREC, from one beneficiary to the next by the fifth number of their entries.
#![tactic(auto)]

ghost use Rattle.std.specs.Prelude.{◌≡◌, ◌&&◌, ◌+◌, ◌*◌, ◌≤◌, ◌<◌, take, IfErr};
ghost use Rattle.dirf.specs.Bytes.{is_in};
ghost use Rattle.dirf.specs.Kinds.{companies, is_beneficiary};
ghost use Rattle.dirf.specs.Limits.{numbers_an_entry};
ghost use Rattle.dirf.specs.Search.{entries_in, kind_in, is_within, is_idrec, search_from, search_in};
ghost use Rattle.search.specs.Answers.{EntryIf, IsNoWay, said, entry_in, key_on};

use checker::NUMBERS_AN_ENTRY;
use records::{BPFDEC, BPFFCI, BPFPROC, BPFRRA, BPFSCP, BPJDEC, BPJFCI, BPJPROC, BPJSCP, IDREC};
use refusals::Refusal;

// The line of the person found, 0 for none as document 02 has it, and how many entries of beneficiaries were looked at.
#[derive(Clone, Copy, PartialEq, Eq)]
pub struct Found {
    pub line: u32,
    pub count: u32,
}

// What the search asks of an entry.
#[derive(Clone, Copy)]
struct Entry {
    kind: u32,
    start: u32,
    len: u32,
    last: u32,
}

// A file and the table of its lines' entries: numbers, since any table is taken, whoever wrote it.
#[derive(Clone, Copy)]
struct Lines<'a> {
    file: &'a [u8],
    table: &'a [u32],
}

// The first so many entries of a table, as a part of it, so that a search is lent no more; all of it where it has fewer.
pub fn entries(table: &[u32], count: u32) -> &[u32]
    ensures { (result.now ≡ take (numbers_an_entry * count) table.now)
        × ((result.ref_ptr.0 ≡ table.entry.ref_ptr.0) × (result.ref_ptr.1 ≡ table.entry.ref_ptr.1)) }
{
    // `as`, here and below: no From takes a u32 to a usize
    let used = NUMBERS_AN_ENTRY * count as usize;
    &table[..used.min(table.len())]
}

#[tactic(auto, using(crate::proofs::EntryRead::by_number), unfolding(dirf::specs::Bytes::bytes_opens, dirf::specs::Kinds::kinds_opens))]
fn is_company(k: u32) -> bool
    ensures { result ≡ is_in k companies }
{
    matches!(k, BPJDEC | BPJFCI | BPJPROC | BPJSCP)
}

// A company, or a person.
#[tactic(auto, using(crate::proofs::EntryRead::by_number), unfolding(dirf::specs::Bytes::bytes_opens, dirf::specs::Kinds::kinds_opens))]
fn is_beneficiary(k: u32) -> bool
    ensures { result ≡ is_beneficiary k }
{
    is_company(k) || matches!(k, BPFDEC | BPFFCI | BPFPROC | BPFRRA | BPFSCP)
}

impl<'a> Lines<'a> {
    // The entry of line n, from 1; its fourth number is not asked for.
    #[tactic(auto, unfolding(crate::specs::Answers::entry_in, dirf::specs::Search::entries_in, dirf::specs::Search::number_in))]
    fn entry(&self, n: u32) -> Entry
        requires { (1 ≤ n) × (n ≤ entries_in self.now.table.now) }
        ensures { result ≡ entry_in self.now.table.now n }
    {
        let at = NUMBERS_AN_ENTRY * (n as usize - 1);
        Entry {
            kind: self.table[at],
            start: self.table[at + 1],
            len: self.table[at + 2],
            last: self.table[at + 4],
        }
    }

    // Whether the entry of line n stays within file and table, and does not end before itself.
    #[tactic(auto, using(crate::proofs::Within::within))]
    fn is_within(&self, n: u32, e: Entry) -> bool
        requires { e ≡ entry_in self.now.table.now n }
        ensures { result ≡ is_within self.now.file.now self.now.table.now n }
    {
        e.start as usize + e.len as usize <= self.file.len()
            && n <= e.last
            && e.last as usize <= self.table.len() / NUMBERS_AN_ENTRY
    }

    // The entry of line n, if it is an IDREC's.
    #[tactic(auto, using(crate::proofs::EntryRead::by_idrec), unfolding(dirf::specs::Search::entries_in))]
    fn idrec(&self, n: u32) -> Result<Entry, Refusal>
        ensures { EntryIf (is_idrec self.now.table.now n && is_within self.now.file.now self.now.table.now n)
            (entry_in self.now.table.now n) result }
    {
        if n == 0 || self.table.len() / NUMBERS_AN_ENTRY < n as usize {
            return Err(Refusal::NoWay);
        }
        let e = self.entry(n);
        if e.kind == IDREC && self.is_within(n, e) {
            Ok(e)
        } else {
            Err(Refusal::NoWay)
        }
    }

    // The entry of line n, if the search may stop there, or look at its key.
    #[tactic(auto, using(crate::proofs::EntryRead::by_kind))]
    fn beneficiary(&self, n: u32) -> Result<Entry, Refusal>
        requires { (1 ≤ n) × (n ≤ entries_in self.now.table.now) }
        ensures { EntryIf (is_beneficiary (kind_in self.now.table.now n) && is_within self.now.file.now self.now.table.now n)
            (entry_in self.now.table.now n) result }
    {
        let e = self.entry(n);
        if is_beneficiary(e.kind) && self.is_within(n, e) {
            Ok(e)
        } else {
            Err(Refusal::NoWay)
        }
    }

    // Field 2 of the line of an entry.
    #[tactic(auto, unfolding(crate::specs::Answers::key_on))]
    fn key(&self, e: Entry) -> &'a [u8]
        ensures { result.now ≡ key_on self.now.file.now e }
    {
        fields::field(fields::part(self.file, e.start as usize, e.len as usize), 2)
    }

    // From behind the IDREC of a line to its last line; every step goes forward, and how far is the entry's own number.
    fn search_below(&self, line: u32, end: u32, key: &[u8]) -> Result<Found, Refusal>
        requires { end ≤ entries_in self.now.table.now }
        ensures says { said result ≡ search_from self.now.file.now self.now.table.now key.now end
            (entries_in self.now.table.now) (line + 1) 0 }
        ensures no_way { IsNoWay result }
    {
        let mut at = line;
        let mut count = 0;
        // no `for`: each entry says itself how far the next step goes
        while at < end {
            let n = at + 1;
            let e = self.beneficiary(n)?;
            count += 1;
            if is_company(e.kind) {
                return Ok(Found { line: 0, count });
            }
            let found = self.key(e);
            if !fields::less(found, key) {
                let line = if fields::same(found, key) { n } else { 0 };
                return Ok(Found { line, count });
            }
            at = e.last;
        }
        Ok(Found { line: 0, count })
    }
}

// The search: the line of the person below the IDREC of a line whose CPF is the key, 0 if there is none.
pub fn search(file: &[u8], table: &[u32], line: u32, key: &[u8]) -> Result<Found, Refusal>
    ensures says { said result ≡ search_in file.now table.now line key.now }
    ensures no_way { IsNoWay result }
{
    let lines = Lines { file, table };
    let e = lines.idrec(line)?;
    lines.search_below(line, e.last, key)
}
