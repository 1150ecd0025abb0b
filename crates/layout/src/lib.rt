// The constant tables of the layout, and what they say of whoever reads them. A constant is built anew by every function that reads
// it, so each is copied once, by a function of its own, and lent down.
#![tactic(auto)]

ghost use Rattle.std.specs.Prelude.{◌≡◌, ◌+◌, ◌≤◌, length, replicate};
ghost use Rattle.std.proofs.lemmas.List.Edits.{sets};
ghost use Rattle.dirf.specs.Kinds.{DECPF, DECPJ};
ghost use Rattle.dirf.specs.Edition.{edition2025};
ghost use Rattle.layout.specs.Tables.{name_in, name_start, base_in, count_in, yes_in, holds_in, name_table, row_table, below_table};
ghost use Rattle.layout.specs.Codes.{row_codes};
ghost use Rattle.editions.specs.Editions.{edition_said};

use editions::Edition;
pub use kinds::{KINDS, is_later, opens_nothing, stands_once};

// Of what may stand below what: DTPSE, 67, is the last kind that holds another, and RDTPSE, 68, the last that is held.
pub const HOLDERS: usize = 68;

pub const COLUMNS: usize = 69;

// Bytes, and no slices or structs: `name` promises a part of the lent table, and the lookups answer of any bytes.
// A slot of the identifiers: a length and seven bytes. A record's line of rows: a count, and room for the rows of the most fields.
const SLOT: usize = 8;

const ROW: usize = 5;

const MOST_FIELDS: usize = fields::MOST_FIELDS;

const RECORD: usize = 1 + MOST_FIELDS * ROW;

pub const NAME_BYTES: usize = KINDS * SLOT;

pub const ROW_BYTES: usize = KINDS * RECORD;

// The kinds that the older edition lacks, those below which they stand, and where a row of Dirf has what its field holds.
// `as`: no From takes a u32 to a usize in a constant
const RTDS: usize = records::RTDS as usize;

const ESDS: usize = records::ESDS as usize;

const BPFDEC: usize = records::BPFDEC as usize;

const BPFPROC: usize = records::BPFPROC as usize;

const DIRF_YEAR: usize = RECORD + 2 * ROW;

const DIRF_CALENDAR_YEAR: usize = RECORD + 3 * ROW;

const DIRF_MARK: usize = RECORD + 6 * ROW;

// A slot for each kind, from 0: the length of its identifier, then the identifier.
const NAMES: [u8; NAME_BYTES] = *b"\
    \x00\0\0\0\0\0\0\0\
    \x04Dirf\0\0\0\
    \x05RESPO\0\0\
    \x05DECPF\0\0\
    \x05DECPJ\0\0\
    \x05IDREC\0\0\
    \x06BPFDEC\0\
    \x04RTRT\0\0\0\
    \x04RTPO\0\0\0\
    \x04RTDP\0\0\0\
    \x04RTDS\0\0\0\
    \x05RTIRF\0\0\
    \x04CJAC\0\0\0\
    \x04CJAA\0\0\0\
    \x04ESRT\0\0\0\
    \x04ESPO\0\0\0\
    \x04ESDP\0\0\0\
    \x04ESDS\0\0\0\
    \x04ESIR\0\0\0\
    \x04ESDJ\0\0\0\
    \x05INFPC\0\0\
    \x04RTPP\0\0\0\
    \x04RTFA\0\0\0\
    \x04RTSP\0\0\0\
    \x04RTEP\0\0\0\
    \x04ESPP\0\0\0\
    \x04ESFA\0\0\0\
    \x04ESSP\0\0\0\
    \x04ESEP\0\0\0\
    \x05INFPA\0\0\
    \x04RTPA\0\0\0\
    \x04ESPA\0\0\0\
    \x05RIDAC\0\0\
    \x05RIIRP\0\0\
    \x04RIAP\0\0\0\
    \x05RIMOG\0\0\
    \x05RIP65\0\0\
    \x05RIBMR\0\0\
    \x05RICAP\0\0\
    \x05RIRPC\0\0\
    \x05RIL96\0\0\
    \x05RIPTS\0\0\
    \x06RIJMRE\0\
    \x03RIO\0\0\0\0\
    \x06BPJDEC\0\
    \x05VPEIM\0\0\
    \x05RIMUN\0\0\
    \x05RISEN\0\0\
    \x03FCI\0\0\0\0\
    \x06BPFFCI\0\
    \x06BPJFCI\0\
    \x04PROC\0\0\0\
    \x07BPFPROC\
    \x05RIRSR\0\0\
    \x07BPJPROC\
    \x03RRA\0\0\0\0\
    \x06BPFRRA\0\
    \x05DAJUD\0\0\
    \x07QTMESES\
    \x03SCP\0\0\0\0\
    \x06BPFSCP\0\
    \x05RISCP\0\0\
    \x06BPJSCP\0\
    \x03PSE\0\0\0\0\
    \x04OPSE\0\0\0\
    \x04TPSE\0\0\0\
    \x05RTPSE\0\0\
    \x05DTPSE\0\0\
    \x06RDTPSE\0\
    \x04RPDE\0\0\0\
    \x05BRPDE\0\0\
    \x05VRPDE\0\0\
    \x03INF\0\0\0\0\
    \x07FIMDirf";

// A line for each kind, from 0: the number of its fields, then five bytes a field: format, fill, size, need, what it holds.
const ROWS: [u8; ROW_BYTES] = *b"\
    \x00...........................................................................\
    \x06CF\x04SiNF\x04SyNF\x04SzCF\x01SsNF\x0cN.CF\x07Sr.............................................\
    \x08CF\x05SiNF\x0bScCV\x3cS.NF\x02SdNV\x09StNV\x06N.NV\x09NtCV\x32N....................................\
    \x0fCF\x05SiNF\x0bScCV\x3cS.CF\x01SsCF\x01SsCF\x01SsCF\x01SsCF\x01SsDF\x08N.NF\x01N2CF\x01SsDF\x08N.NF\x01N1NF\x0bNcCV\x3cN.\
    \x0eCF\x05SiNF\x0eSjCV\x96S.NF\x01S8NF\x0bScCF\x01SsCF\x01SsCF\x01SsCF\x01SsCF\x01SsCF\x01SsCF\x01SsCF\x01SsDF\x08N......\
    \x02CF\x05SiNF\x04S..................................................................\
    \x06CF\x06SiNF\x0bScCV\x3cS.DF\x08N.CF\x01SsCF\x01Ss.............................................\
    \x0eCV\x05SiNV\x0dNaNV\x0dNaNV\x0dNaNV\x0dNaNV\x0dNaNV\x0dNaNV\x0dNaNV\x0dNaNV\x0dNaNV\x0dNaNV\x0dNaNV\x0dNaNV\x0dNa.....\
    \x0eCV\x05SiNV\x0dNaNV\x0dNaNV\x0dNaNV\x0dNaNV\x0dNaNV\x0dNaNV\x0dNaNV\x0dNaNV\x0dNaNV\x0dNaNV\x0dNaNV\x0dNaNV\x0dNa.....\
    \x0eCV\x05SiNV\x0dNaNV\x0dNaNV\x0dNaNV\x0dNaNV\x0dNaNV\x0dNaNV\x0dNaNV\x0dNaNV\x0dNaNV\x0dNaNV\x0dNaNV\x0dNaNV\x0dNa.....\
    \x0eCV\x05SiNV\x0dNaNV\x0dNaNV\x0dNaNV\x0dNaNV\x0dNaNV\x0dNaNV\x0dNaNV\x0dNaNV\x0dNaNV\x0dNaNV\x0dNaNV\x0dNaNV\x0dNa.....\
    \x0eCV\x05SiNV\x0dNaNV\x0dNaNV\x0dNaNV\x0dNaNV\x0dNaNV\x0dNaNV\x0dNaNV\x0dNaNV\x0dNaNV\x0dNaNV\x0dNaNV\x0dNaNV\x0dNa.....\
    \x0eCV\x05SiNV\x0dNaNV\x0dNaNV\x0dNaNV\x0dNaNV\x0dNaNV\x0dNaNV\x0dNaNV\x0dNaNV\x0dNaNV\x0dNaNV\x0dNaNV\x0dNaNV\x0dNa.....\
    \x0eCV\x05SiNV\x0dNaNV\x0dNaNV\x0dNaNV\x0dNaNV\x0dNaNV\x0dNaNV\x0dNaNV\x0dNaNV\x0dNaNV\x0dNaNV\x0dNaNV\x0dNaNV\x0dNa.....\
    \x0eCV\x05SiNV\x0dNaNV\x0dNaNV\x0dNaNV\x0dNaNV\x0dNaNV\x0dNaNV\x0dNaNV\x0dNaNV\x0dNaNV\x0dNaNV\x0dNaNV\x0dNaNV\x0dNa.....\
    \x0eCV\x05SiNV\x0dNaNV\x0dNaNV\x0dNaNV\x0dNaNV\x0dNaNV\x0dNaNV\x0dNaNV\x0dNaNV\x0dNaNV\x0dNaNV\x0dNaNV\x0dNaNV\x0dNa.....\
    \x0eCV\x05SiNV\x0dNaNV\x0dNaNV\x0dNaNV\x0dNaNV\x0dNaNV\x0dNaNV\x0dNaNV\x0dNaNV\x0dNaNV\x0dNaNV\x0dNaNV\x0dNaNV\x0dNa.....\
    \x0eCV\x05SiNV\x0dNaNV\x0dNaNV\x0dNaNV\x0dNaNV\x0dNaNV\x0dNaNV\x0dNaNV\x0dNaNV\x0dNaNV\x0dNaNV\x0dNaNV\x0dNaNV\x0dNa.....\
    \x0eCV\x05SiNV\x0dNaNV\x0dNaNV\x0dNaNV\x0dNaNV\x0dNaNV\x0dNaNV\x0dNaNV\x0dNaNV\x0dNaNV\x0dNaNV\x0dNaNV\x0dNaNV\x0dNa.....\
    \x0eCV\x05SiNV\x0dNaNV\x0dNaNV\x0dNaNV\x0dNaNV\x0dNaNV\x0dNaNV\x0dNaNV\x0dNaNV\x0dNaNV\x0dNaNV\x0dNaNV\x0dNaNV\x0dNa.....\
    \x03CF\x05SiNF\x0eSjCV\x96S.............................................................\
    \x0eCV\x05SiNV\x0dNaNV\x0dNaNV\x0dNaNV\x0dNaNV\x0dNaNV\x0dNaNV\x0dNaNV\x0dNaNV\x0dNaNV\x0dNaNV\x0dNaNV\x0dNaNV\x0dNa.....\
    \x0eCV\x05SiNV\x0dNaNV\x0dNaNV\x0dNaNV\x0dNaNV\x0dNaNV\x0dNaNV\x0dNaNV\x0dNaNV\x0dNaNV\x0dNaNV\x0dNaNV\x0dNaNV\x0dNa.....\
    \x0eCV\x05SiNV\x0dNaNV\x0dNaNV\x0dNaNV\x0dNaNV\x0dNaNV\x0dNaNV\x0dNaNV\x0dNaNV\x0dNaNV\x0dNaNV\x0dNaNV\x0dNaNV\x0dNa.....\
    \x0eCV\x05SiNV\x0dNaNV\x0dNaNV\x0dNaNV\x0dNaNV\x0dNaNV\x0dNaNV\x0dNaNV\x0dNaNV\x0dNaNV\x0dNaNV\x0dNaNV\x0dNaNV\x0dNa.....\
    \x0eCV\x05SiNV\x0dNaNV\x0dNaNV\x0dNaNV\x0dNaNV\x0dNaNV\x0dNaNV\x0dNaNV\x0dNaNV\x0dNaNV\x0dNaNV\x0dNaNV\x0dNaNV\x0dNa.....\
    \x0eCV\x05SiNV\x0dNaNV\x0dNaNV\x0dNaNV\x0dNaNV\x0dNaNV\x0dNaNV\x0dNaNV\x0dNaNV\x0dNaNV\x0dNaNV\x0dNaNV\x0dNaNV\x0dNa.....\
    \x0eCV\x05SiNV\x0dNaNV\x0dNaNV\x0dNaNV\x0dNaNV\x0dNaNV\x0dNaNV\x0dNaNV\x0dNaNV\x0dNaNV\x0dNaNV\x0dNaNV\x0dNaNV\x0dNa.....\
    \x0eCV\x05SiNV\x0dNaNV\x0dNaNV\x0dNaNV\x0dNaNV\x0dNaNV\x0dNaNV\x0dNaNV\x0dNaNV\x0dNaNV\x0dNaNV\x0dNaNV\x0dNaNV\x0dNa.....\
    \x05CF\x05SiNF\x0bNcDF\x08N.CV\x3cS.NF\x02Nk..................................................\
    \x0eCV\x05SiNV\x0dNaNV\x0dNaNV\x0dNaNV\x0dNaNV\x0dNaNV\x0dNaNV\x0dNaNV\x0dNaNV\x0dNaNV\x0dNaNV\x0dNaNV\x0dNaNV\x0dNa.....\
    \x0eCV\x05SiNV\x0dNaNV\x0dNaNV\x0dNaNV\x0dNaNV\x0dNaNV\x0dNaNV\x0dNaNV\x0dNaNV\x0dNaNV\x0dNaNV\x0dNaNV\x0dNaNV\x0dNa.....\
    \x0eCV\x05SiNV\x0dNaNV\x0dNaNV\x0dNaNV\x0dNaNV\x0dNaNV\x0dNaNV\x0dNaNV\x0dNaNV\x0dNaNV\x0dNaNV\x0dNaNV\x0dNaNV\x0dNa.....\
    \x0eCV\x05SiNV\x0dNaNV\x0dNaNV\x0dNaNV\x0dNaNV\x0dNaNV\x0dNaNV\x0dNaNV\x0dNaNV\x0dNaNV\x0dNaNV\x0dNaNV\x0dNaNV\x0dNa.....\
    \x0eCV\x05SiNV\x0dNaNV\x0dNaNV\x0dNaNV\x0dNaNV\x0dNaNV\x0dNaNV\x0dNaNV\x0dNaNV\x0dNaNV\x0dNaNV\x0dNaNV\x0dNaNV\x0dNa.....\
    \x0eCV\x05SiNV\x0dNaNV\x0dNaNV\x0dNaNV\x0dNaNV\x0dNaNV\x0dNaNV\x0dNaNV\x0dNaNV\x0dNaNV\x0dNaNV\x0dNaNV\x0dNaNV\x0dNa.....\
    \x0eCV\x05SiNV\x0dNaNV\x0dNaNV\x0dNaNV\x0dNaNV\x0dNaNV\x0dNaNV\x0dNaNV\x0dNaNV\x0dNaNV\x0dNaNV\x0dNaNV\x0dNaNV\x0dNa.....\
    \x0eCV\x05SiNV\x0dNaNV\x0dNaNV\x0dNaNV\x0dNaNV\x0dNaNV\x0dNaNV\x0dNaNV\x0dNaNV\x0dNaNV\x0dNaNV\x0dNaNV\x0dNaNV\x0dNa.....\
    \x0eCV\x05SiNV\x0dNaNV\x0dNaNV\x0dNaNV\x0dNaNV\x0dNaNV\x0dNaNV\x0dNaNV\x0dNaNV\x0dNaNV\x0dNaNV\x0dNaNV\x0dNaNV\x0dNa.....\
    \x0eCV\x05SiNV\x0dNaNV\x0dNaNV\x0dNaNV\x0dNaNV\x0dNaNV\x0dNaNV\x0dNaNV\x0dNaNV\x0dNaNV\x0dNaNV\x0dNaNV\x0dNaNV\x0dNa.....\
    \x02CV\x06SiNV\x0dSa.................................................................\
    \x02CV\x06SiNV\x0dSa.................................................................\
    \x02CV\x06SiNV\x0dSa.................................................................\
    \x03CF\x03SiNV\x0dSaCV\x3cS.............................................................\
    \x03CF\x06SiNF\x0eSjCV\x96S.............................................................\
    \x00...........................................................................\
    \x00...........................................................................\
    \x00...........................................................................\
    \x03CF\x03SiNF\x0eSjCV\x96S.............................................................\
    \x04CF\x06SiNF\x0bScCV\x3cS.DF\x08N........................................................\
    \x03CF\x06SiNF\x0eSjCV\x96S.............................................................\
    \x07CF\x04SiNF\x01S3CV\x14S.NF\x01N2NV\x0eNeCV\x96N.NV\x0dNa........................................\
    \x04CF\x07SiNF\x0bScCV\x3cS.DF\x08N........................................................\
    \x02CV\x06SiNV\x0dSa.................................................................\
    \x03CF\x07SiNF\x0eSjCV\x96S.............................................................\
    \x07CF\x03SiNF\x01S2CV\x14N.NF\x01N2NV\x0eNeCV\x96N.NV\x0dNa........................................\
    \x06CF\x06SiNF\x0bScCV\x3cS.CV\x32N.DF\x08N.CF\x01Ss.............................................\
    \x0eCV\x05SiNV\x0dNaNV\x0dNaNV\x0dNaNV\x0dNaNV\x0dNaNV\x0dNaNV\x0dNaNV\x0dNaNV\x0dNaNV\x0dNaNV\x0dNaNV\x0dNaNV\x0dNa.....\
    \x0dCF\x07SiNV\x04NmNV\x04NmNV\x04NmNV\x04NmNV\x04NmNV\x04NmNV\x04NmNV\x04NmNV\x04NmNV\x04NmNV\x04NmNV\x04Nm..........\
    \x03CF\x03SiNF\x0eSjCV\x96S.............................................................\
    \x04CF\x06SiNF\x0bScCV\x3cS.NV\x04N........................................................\
    \x0eCV\x05SiNV\x0dNaNV\x0dNaNV\x0dNaNV\x0dNaNV\x0dNaNV\x0dNaNV\x0dNaNV\x0dNaNV\x0dNaNV\x0dNaNV\x0dNaNV\x0dNaNV\x0dNa.....\
    \x04CF\x06SiNF\x0eSjCV\x96S.CV\x04N........................................................\
    \x01CF\x03Si......................................................................\
    \x04CF\x04SiNF\x0eSjCV\x96S.NF\x06N........................................................\
    \x04CF\x04SiNF\x0bScCV\x3cS.NV\x09Sa.......................................................\
    \x05CF\x05SiNV\x0eSeCV\x96S.NV\x09NaNV\x09Na..................................................\
    \x06CF\x05SiNF\x0bNcDF\x08N.CV\x3cS.NF\x02NkNV\x09Sa.............................................\
    \x05CF\x06SiNV\x0eSeCV\x96S.NV\x09NaNV\x09Na..................................................\
    \x00...........................................................................\
    \x00...........................................................................\
    \x00...........................................................................\
    \x00...........................................................................\
    \x01CF\x07Si......................................................................";

// Which record may stand directly below which: a row for each parent, a column for each child; one table for each declarant.
// Document 01 asks for a constant array of arrays.
const BELOW_DECPF: [[u8; COLUMNS]; HOLDERS] = [
    *b".....................................................................",
    *b".....................................................................",
    *b".....................................................................",
    *b".....Y.................................................Y...Y...Y.....",
    *b".....................................................................",
    *b"......Y.....................................Y...........Y............",
    *b".......YYYYYYYYYYYYYY........Y..YYY.Y.....YY.........................",
    *b".....................................................................",
    *b".....................................................................",
    *b".....................................................................",
    *b".....................................................................",
    *b".....................................................................",
    *b".....................................................................",
    *b".....................................................................",
    *b".....................................................................",
    *b".....................................................................",
    *b".....................................................................",
    *b".....................................................................",
    *b".....................................................................",
    *b".....................................................................",
    *b".....................YY..YY..........................................",
    *b".....................................................................",
    *b".....................................................................",
    *b".....................................................................",
    *b".....................................................................",
    *b".....................................................................",
    *b".....................................................................",
    *b".....................................................................",
    *b".....................................................................",
    *b"..............................YY.....................................",
    *b".....................................................................",
    *b".....................................................................",
    *b".....................................................................",
    *b".....................................................................",
    *b".....................................................................",
    *b".....................................................................",
    *b".....................................................................",
    *b".....................................................................",
    *b".....................................................................",
    *b".....................................................................",
    *b".....................................................................",
    *b".....................................................................",
    *b".....................................................................",
    *b".....................................................................",
    *b".......Y...Y.........................................................",
    *b".....................................................................",
    *b".....................................................................",
    *b".....................................................................",
    *b".....................................................................",
    *b".....................................................................",
    *b".....................................................................",
    *b".....................................................................",
    *b".....................................................................",
    *b".....................................................................",
    *b".....................................................................",
    *b".....Y...............................................................",
    *b".......YY..Y.................Y............Y..............YY..........",
    *b".....................................................................",
    *b".....................................................................",
    *b"............................................................Y.Y......",
    *b".............................................................Y.......",
    *b".....................................................................",
    *b".............................................................Y.......",
    *b"................................................................Y....",
    *b".................................................................Y...",
    *b"..................................................................YY.",
    *b".....................................................................",
    *b"....................................................................Y",
];

const BELOW_DECPJ: [[u8; COLUMNS]; HOLDERS] = [
    *b".....................................................................",
    *b".....................................................................",
    *b".....................................................................",
    *b".....................................................................",
    *b".....Y..........................................Y..Y...Y...Y...Y.....",
    *b"......Y.....................................Y....YY.Y.Y.Y............",
    *b".......YYYYYYYYYYYYYY........Y..YYYYYYYYYYYY.........................",
    *b".....................................................................",
    *b".....................................................................",
    *b".....................................................................",
    *b".....................................................................",
    *b".....................................................................",
    *b".....................................................................",
    *b".....................................................................",
    *b".....................................................................",
    *b".....................................................................",
    *b".....................................................................",
    *b".....................................................................",
    *b".....................................................................",
    *b".....................................................................",
    *b".....................YYYYYYYY........................................",
    *b".....................................................................",
    *b".....................................................................",
    *b".....................................................................",
    *b".....................................................................",
    *b".....................................................................",
    *b".....................................................................",
    *b".....................................................................",
    *b".....................................................................",
    *b"..............................YY.....................................",
    *b".....................................................................",
    *b".....................................................................",
    *b".....................................................................",
    *b".....................................................................",
    *b".....................................................................",
    *b".....................................................................",
    *b".....................................................................",
    *b".....................................................................",
    *b".....................................................................",
    *b".....................................................................",
    *b".....................................................................",
    *b".....................................................................",
    *b".....................................................................",
    *b".....................................................................",
    *b".......Y...Y.........................................................",
    *b".....................................................................",
    *b".....................................................................",
    *b".....................................................................",
    *b".....Y...............................................................",
    *b".......Y...YYYY...YY...............YY.Y....Y.........................",
    *b".......Y...Y.........................................................",
    *b".....Y...............................................................",
    *b".......YYYYYYYYYYYYY.YYY.YYY..YY...Y......Y..........Y...............",
    *b".....................................................................",
    *b".......Y...Y.........................................Y...............",
    *b".....Y...............................................................",
    *b".......YY..Y.................Y.....YY.....Y..............YY..........",
    *b".....................................................................",
    *b".....................................................................",
    *b"............................................................Y.Y......",
    *b".............................................................Y.......",
    *b".....................................................................",
    *b".............................................................Y.......",
    *b"................................................................Y....",
    *b".................................................................Y...",
    *b"..................................................................YY.",
    *b".....................................................................",
    *b"....................................................................Y",
];

// Letters and no enums: row_at and rules' field_rule answer of every five bytes.
// A row of the field table: five bytes.
#[derive(Clone, Copy)]
pub struct Row {
    pub format: u8,
    pub fill: u8,
    pub size: u8,
    pub need: u8,
    pub holds: u8,
}

const NO_ROW: Row = Row {
    format: 0,
    fill: 0,
    size: 0,
    need: 0,
    holds: 0,
};

#[tactic(auto, unfolding(crate::specs::Tables::tables_open, dirf::specs::Bytes::bytes_opens, dirf::specs::Edition::edition_opens))]
fn names_2025() -> [u8; NAME_BYTES]
    ensures { result ≡ name_table edition2025 }
{
    NAMES
}

#[tactic(auto, unfolding(crate::specs::Tables::tables_open, dirf::specs::Bytes::bytes_opens, dirf::specs::Edition::edition_opens))]
fn rows_2025() -> [u8; ROW_BYTES]
    ensures { result ≡ row_table edition2025 }
{
    ROWS
}

#[tactic(auto, unfolding(crate::specs::Tables::tables_open, dirf::specs::Bytes::bytes_opens, dirf::specs::Edition::edition_opens))]
fn pf_2025() -> [[u8; COLUMNS]; HOLDERS]
    ensures { result ≡ below_table edition2025 DECPF }
{
    BELOW_DECPF
}

#[tactic(auto, unfolding(crate::specs::Tables::tables_open, dirf::specs::Bytes::bytes_opens, dirf::specs::Edition::edition_opens))]
fn pj_2025() -> [[u8; COLUMNS]; HOLDERS]
    ensures { result ≡ below_table edition2025 DECPJ }
{
    BELOW_DECPJ
}

// A byte, n times, from a place of a table on.
fn fill(t: &mut [u8], from: usize, n: usize, b: u8)
    requires { from + n ≤ length t.old }
    ensures { t.new ≡ sets t.old from (replicate n b) }
{
    t[from..from + n].fill(b);
}

// The tables of an edition. Those of the older one are those of 2025 with its own values in line 1, and without RTDS and ESDS.
#[tactic(auto, using(crate::proofs::Editions::names_older), unfolding(dirf::specs::Editions::edition_named))]
pub fn name_table(e: Edition) -> [u8; NAME_BYTES]
    ensures { result ≡ name_table (edition_said e) }
{
    let mut t = names_2025();
    match e {
        Edition::Of2025 => {}
        Edition::Of2022 => {
            fill(&mut t, RTDS * SLOT, SLOT, 0);
            fill(&mut t, ESDS * SLOT, SLOT, 0);
        }
    }
    t
}

#[tactic(auto, using(crate::proofs::Editions::rows_older), unfolding(dirf::specs::Editions::edition_named))]
pub fn row_table(e: Edition) -> [u8; ROW_BYTES]
    ensures { result ≡ row_table (edition_said e) }
{
    let mut t = rows_2025();
    match e {
        Edition::Of2025 => {}
        Edition::Of2022 => {
            fill(&mut t, RTDS * RECORD, RECORD, b'.');
            fill(&mut t, ESDS * RECORD, RECORD, b'.');
            t[RTDS * RECORD] = 0;
            t[ESDS * RECORD] = 0;
            t[DIRF_YEAR] = b'o';
            t[DIRF_CALENDAR_YEAR] = b'p';
            t[DIRF_MARK] = b'q';
        }
    }
    t
}

// What may stand below what under a DECPF, and under a DECPJ. Each has a function of its own: to choose between two costs a copy.
#[tactic(auto, using(crate::proofs::Editions::pf_older), unfolding(dirf::specs::Editions::edition_named))]
pub fn pf_table(e: Edition) -> [[u8; COLUMNS]; HOLDERS]
    ensures { result ≡ below_table (edition_said e) DECPF }
{
    let mut t = pf_2025();
    match e {
        Edition::Of2025 => {}
        Edition::Of2022 => {
            t[BPFDEC][RTDS] = b'.';
            t[BPFDEC][ESDS] = b'.';
        }
    }
    t
}

#[tactic(auto, using(crate::proofs::Editions::pj_older), unfolding(dirf::specs::Editions::edition_named))]
pub fn pj_table(e: Edition) -> [[u8; COLUMNS]; HOLDERS]
    ensures { result ≡ below_table (edition_said e) DECPJ }
{
    let mut t = pj_2025();
    match e {
        Edition::Of2025 => {}
        Edition::Of2022 => {
            t[BPFDEC][RTDS] = b'.';
            t[BPFDEC][ESDS] = b'.';
            t[BPFPROC][RTDS] = b'.';
            t[BPFPROC][ESDS] = b'.';
        }
    }
    t
}

// The identifier of a kind, as a part of the lent table; empty for what is no kind. A longer length is cut to the slot.
#[tactic(auto, using(std::proofs::lemmas::Bool::Decides::nat_tests), unfolding(crate::specs::Tables::lookups_open))]
pub fn name(names: &[u8; NAME_BYTES], k: u32) -> &[u8]
    ensures { (result.now ≡ name_in names.now k)
        × ((result.ref_ptr.0 ≡ names.entry.ref_ptr.0) × (result.ref_ptr.1 ≡ names.entry.ref_ptr.1 + name_start k)) }
{
    // `as`, here and below: no From takes a u32 to a usize
    let k = k as usize;
    if KINDS <= k {
        return &names[..0];
    }
    let len = (SLOT - 1).min(usize::from(names[k * SLOT]));
    let start = k * SLOT + 1;
    &names[start..start + len]
}

// How many fields a kind has. A larger number is cut to the room for rows.
#[tactic(auto, using(std::proofs::lemmas::Bool::Decides::nat_tests), unfolding(crate::specs::Tables::lookups_open))]
pub fn field_count(rows: &[u8; ROW_BYTES], k: u32) -> usize
    ensures { result ≡ count_in rows.now k }
{
    let k = k as usize;
    if k < KINDS {
        MOST_FIELDS.min(usize::from(rows[k * RECORD]))
    } else {
        0
    }
}

// Row i, from 0, of a kind; no Option past the last: its clause has a row for every kind and place, by the definition `row_codes`.
#[tactic(auto, using(std::proofs::lemmas::Bool::Decides::nat_tests), unfolding(crate::specs::Codes::codes_open))]
pub fn row_at(rows: &[u8; ROW_BYTES], k: u32, i: usize) -> Row
    ensures { result ≡ row_codes rows.now k i }
{
    let k = k as usize;
    if KINDS <= k || MOST_FIELDS <= i {
        return NO_ROW;
    }
    let at = k * RECORD + 1 + i * ROW;
    Row {
        format: rows[at],
        fill: rows[at + 1],
        size: rows[at + 2],
        need: rows[at + 3],
        holds: rows[at + 4],
    }
}

#[tactic(auto, using(std::proofs::lemmas::Bool::Decides::nat_tests), unfolding(crate::specs::Tables::lookups_open))]
fn yes(t: &[[u8; COLUMNS]; HOLDERS], h: u32, k: u32) -> bool
    ensures { result ≡ yes_in t.now h k }
{
    let (h, k) = (h as usize, k as usize);
    h < HOLDERS && k < COLUMNS && t[h][k] == b'Y'
}

// May a record of a kind stand directly below a holder of another, which itself belongs to `outer`, by the declarant's table?
#[tactic(auto, unfolding(crate::specs::Tables::holds_in))]
pub fn may_hold(
    below: &[[u8; COLUMNS]; HOLDERS],
    declarant: u32,
    holder: u32,
    outer: u32,
    kind: u32,
) -> bool
    ensures { result ≡ holds_in below.now declarant holder outer kind }
{
    yes(below, holder, kind) && kinds::suits(declarant, holder, outer, kind)
}

// A kind that is in the base: the table names it, and it is not left for later.
#[tactic(auto, using(std::proofs::lemmas::Bool::Decides::nat_tests), unfolding(crate::specs::Tables::base_in))]
pub fn is_base(names: &[u8; NAME_BYTES], k: u32) -> bool
    ensures { result ≡ base_in names.now k }
{
    !name(names, k).is_empty() && !kinds::is_later(k)
}
