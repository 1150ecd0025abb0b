// The field reader, the places of a line's fields, and the order of keys.
#![tactic(auto)]

ghost use Rattle.std.specs.Prelude.{◌≡◌, [], ◌∷◌, ◌+◌, ◌<◌, ◌==◌, min, length, if◌then◌else◌};
ghost use Rattle.std.specs.List.{position};
ghost use Rattle.dirf.specs.Bytes.{is_in, same as same_text, less as less_text};
ghost use Rattle.dirf.specs.Kinds.{reimbursements};
ghost use Rattle.dirf.specs.Limits.{bar};
ghost use Rattle.dirf.specs.Lines.{is_line_end, fields as fields_of, field};
ghost use Rattle.dirf.specs.FieldReader.{field_there, field_of, field_start};
ghost use Rattle.dirf.specs.Keys.{key_fields, fewer_digits_first, key_of, key_less};
ghost use Rattle.fields.specs.Places.{part_of, cells_of, no_places, add_place, place_of, scan_of, places_along, key_parts};

use records::*;

// No record has more fields than this.
pub const MOST_FIELDS: usize = 15;

// Where a field stands in its line.
#[derive(Clone, Copy)]
pub struct Place {
    pub start: usize,
    pub len: usize,
}

// The count goes on past the places: number 11 is asked of it.
// Where the fields of a line stand: how many there are, and the places of the first fifteen.
#[derive(Clone, Copy)]
pub struct Places {
    pub count: usize,
    pub first: [Place; MOST_FIELDS],
}

impl Places {
    #[tactic(auto, unfolding(crate::specs::Places::no_places))]
    fn none() -> Places
        ensures { result ≡ no_places }
    {
        Places {
            count: 0,
            first: [Place { start: 0, len: 0 }; MOST_FIELDS],
        }
    }

    // One field more; past the fifteenth only the count goes on.
    #[tactic(auto, using(std::proofs::lemmas::List::set_past), unfolding(crate::specs::Places::add_place))]
    fn add(&mut self, place: Place)
        requires { self.old.count < 18446744073709551615 }
        ensures { self.new ≡ add_place self.old place.start place.len }
    {
        if self.count < MOST_FIELDS {
            self.first[self.count] = place;
        }
        self.count += 1;
    }
}

// How many bytes stand before the first CR or LF, or before the end, and where their fields stand.
#[derive(Clone, Copy)]
pub struct Scanned {
    pub len: usize,
    pub places: Places,
}

// The part at a place, as a part of the caller's own bytes; past the end there is nothing.
#[tactic(auto, using(std::proofs::lemmas::List::take_min, std::proofs::lemmas::List::drop_min), unfolding(crate::specs::Places::part_of))]
pub fn part(s: &[u8], start: usize, len: usize) -> &[u8]
    ensures { (result.now ≡ part_of s.now start len)
        × ((result.ref_ptr.0 ≡ s.entry.ref_ptr.0) × (result.ref_ptr.1 ≡ s.entry.ref_ptr.1 + min start (length s.now))) }
{
    let rest = &s[start.min(s.len())..];
    &rest[..len.min(rest.len())]
}

// The fields of a record: some bytes, and where the fields stand in them.
#[derive(Clone, Copy)]
pub struct Cells<'a> {
    pub bytes: &'a [u8],
    pub places: &'a Places,
}

impl<'a> Cells<'a> {
    // Field k, from 1, as a part of the bytes; empty where there is none.
    pub fn field(self, k: usize) -> &'a [u8]
        ensures { result.now ≡ field k (cells_of self.entry) }
    {
        if k == 0 || self.places.count < k || MOST_FIELDS < k {
            return &self.bytes[..0];
        }
        let Place { start, len } = self.places.first[k - 1];
        part(self.bytes, start, len)
    }

    // Whether field k holds this text.
    pub fn says(self, k: usize, text: &[u8]) -> bool
        ensures { result ≡ same_text (field k (cells_of self.entry)) text.now }
    {
        same(self.field(k), text)
    }
}

// Byte for byte, case kept.
#[tactic(auto, using(crate::proofs::Compare::same_lem))]
pub fn same(a: &[u8], b: &[u8]) -> bool
    ensures { result ≡ same_text a.now b.now }
{
    a == b
}

// Byte by byte, a proper beginning first.
#[tactic(auto, using(crate::proofs::Compare::less_lem))]
pub fn less(a: &[u8], b: &[u8]) -> bool
    ensures { result ≡ less_text a.now b.now }
{
    // `cmp`, here and below: `<` of slices asks byte by byte, and this passes what is equal many bytes at a time
    a.cmp(b).is_lt()
}

// Whether the key of fields 2 and 3, a then b, comes before that of x then y: of the first field alone, or of both.
#[tactic(auto, using(crate::proofs::Compare::pair_lem, crate::proofs::Keys::both_fields))]
fn then_less(a: &[u8], b: &[u8], x: &[u8], y: &[u8]) -> bool
    ensures { result ≡ key_less (a.now ∷ b.now ∷ []) (x.now ∷ y.now ∷ []) }
{
    (a, b).cmp(&(x, y)).is_lt()
}

// Whether a number comes before another: the one with fewer digits first, then byte by byte.
#[tactic(auto, using(crate::proofs::Compare::sized_lem, crate::proofs::Keys::numbers))]
fn number_less(a: &[u8], b: &[u8]) -> bool
    ensures { result ≡ key_less (fewer_digits_first a.now) (fewer_digits_first b.now) }
{
    (a.len(), a).cmp(&(b.len(), b)).is_lt()
}

// Whether a key of field 2 alone comes before another: that of RTPSE and RDTPSE is a CPF or a CNPJ.
#[tactic(auto, using(std::proofs::lemmas::Bool::Decides::nat_tests), unfolding(crate::proofs::Opens::listed_opens))]
fn one_less(k: u32, a: &[u8], b: &[u8]) -> bool
    ensures { result ≡ (if is_in k reimbursements then key_less (fewer_digits_first a.now) (fewer_digits_first b.now)
        else less_text a.now b.now) }
{
    match k {
        RTPSE | RDTPSE => number_less(a, b),
        _ => less(a, b),
    }
}

// Whether the key of an earlier line of kind k comes before that of a record of that kind with these fields 2 and 3.
pub fn key_less(k: u32, earlier: &[u8], second: &[u8], third: &[u8]) -> bool
    ensures { result ≡ key_less (key_of k (fields_of earlier.now)) (key_parts k second.now third.now) }
{
    match key_count(k) {
        2 => then_less(field(earlier, 2), field(earlier, 3), second, third),
        1 => one_less(k, field(earlier, 2), second),
        _ => false,
    }
}

// How many fields the key of a kind has: field 2, or fields 2 and 3.
#[tactic(auto, using(std::proofs::lemmas::Bool::Decides::nat_tests), unfolding(crate::proofs::Opens::count_opens))]
pub fn key_count(k: u32) -> usize
    ensures { result ≡ length (key_fields k) }
{
    match k {
        PROC | RRA | INFPA | DTPSE => 2,
        IDREC | RTPSE | RDTPSE => 1,
        // a CPF
        BPFDEC | BPFFCI | BPFPROC | BPFRRA | BPFSCP | TPSE => 1,
        // a CNPJ
        INFPC | BPJDEC | FCI | BPJFCI | BPJPROC | SCP | BPJSCP | OPSE => 1,
        _ => 0,
    }
}

// Where the first bar stands.
fn first_bar(s: &[u8]) -> Option<usize>
    ensures { result ≡ position (λ b. b == bar) s.now }
{
    s.iter().position(|b| *b == b'|')
}

// Where field k stands, if there is one.
pub fn place_of(line: &[u8], k: usize) -> Option<Place>
    ensures { result ≡ place_of line.now k }
{
    let mut start = 0;
    // one call of `first_bar`: of two the compiler makes two loops, and one of them takes two fifths more a byte
    for before in (0..k).rev() {
        let len = first_bar(&line[start..])?;
        if before == 0 {
            return Some(Place { start, len });
        }
        start += len + 1;
    }
    None
}

// Field k, as a part of the caller's own line: its bytes, and where in the line they stand.
pub fn field(line: &[u8], k: usize) -> &[u8]
    ensures { (result.now ≡ field_of k line.now)
        × ((result.ref_ptr.0 ≡ line.entry.ref_ptr.0) × (result.ref_ptr.1 ≡ line.entry.ref_ptr.1 + field_start k line.now)) }
{
    match place_of(line, k) {
        Some(Place { start, len }) => &line[start..start + len],
        None => &line[line.len()..],
    }
}

// Whether there is a field k.
#[tactic(auto, unfolding(crate::specs::Places::place_of))]
pub fn field_there(line: &[u8], k: usize) -> bool
    ensures { result ≡ field_there k line.now }
{
    place_of(line, k).is_some()
}

// A CR or an LF.
#[tactic(auto, using(std::proofs::lemmas::Bool::Decides::nat_tests), unfolding(dirf::specs::Lines::is_line_end))]
fn ends_line(b: u8) -> bool
    ensures { result ≡ is_line_end b }
{
    // by hand: most bytes of a line are greater, and cost one test; as one `||`, or behind an `&&`, two
    if b'\r' < b {
        return false;
    }
    if b == b'\r' {
        return true;
    }
    b == b'\n'
}

// The bytes before the first CR or LF, or before the end, and their fields: the one walk over a line.
pub fn scan(s: &[u8]) -> Scanned
    ensures { result ≡ scan_of s.now }
{
    let mut places = Places::none();
    let mut start = 0;
    for (i, &b) in s.iter().enumerate() {
        if ends_line(b) {
            return Scanned { len: i, places };
        }
        if b == b'|' {
            let len = i - start;
            places.add(Place { start, len });
            start = i + 1;
        }
    }
    // built twice: one ending would need a flag or a second length
    Scanned {
        len: s.len(),
        places,
    }
}

// The places of fields that stand one after another, of these lengths; a start past any integer is the last integer.
pub fn places_along(lengths: &[usize]) -> Places
    ensures { result ≡ places_along lengths.now }
{
    let mut places = Places::none();
    let mut start: usize = 0;
    for &len in lengths {
        places.add(Place { start, len });
        start = start.saturating_add(len);
    }
    places
}
