// The kinds of record by name: numbers, since whoever asks of a kind may ask of any u32.
#![tactic(auto)]

pub const DIRF: u32 = 1;

pub const RESPO: u32 = 2;

pub const DECPF: u32 = 3;

pub const DECPJ: u32 = 4;

pub const IDREC: u32 = 5;

pub const BPFDEC: u32 = 6;

pub const RTRT: u32 = 7;

pub const RTPO: u32 = 8;

pub const RTDP: u32 = 9;

pub const RTDS: u32 = 10;

pub const RTIRF: u32 = 11;

pub const CJAC: u32 = 12;

pub const CJAA: u32 = 13;

pub const ESRT: u32 = 14;

pub const ESPO: u32 = 15;

pub const ESDP: u32 = 16;

pub const ESDS: u32 = 17;

pub const ESIR: u32 = 18;

pub const ESDJ: u32 = 19;

pub const INFPC: u32 = 20;

pub const RTPP: u32 = 21;

pub const RTFA: u32 = 22;

pub const RTSP: u32 = 23;

pub const RTEP: u32 = 24;

pub const ESPP: u32 = 25;

pub const ESFA: u32 = 26;

pub const ESSP: u32 = 27;

pub const ESEP: u32 = 28;

pub const INFPA: u32 = 29;

pub const RTPA: u32 = 30;

pub const ESPA: u32 = 31;

pub const RIDAC: u32 = 32;

pub const RIIRP: u32 = 33;

pub const RIAP: u32 = 34;

pub const RIMOG: u32 = 35;

pub const RIP65: u32 = 36;

pub const RIBMR: u32 = 37;

pub const RICAP: u32 = 38;

pub const RIRPC: u32 = 39;

pub const RIL96: u32 = 40;

pub const RIPTS: u32 = 41;

pub const RIJMRE: u32 = 42;

pub const RIO: u32 = 43;

pub const BPJDEC: u32 = 44;

pub const VPEIM: u32 = 45;

pub const RIMUN: u32 = 46;

pub const RISEN: u32 = 47;

pub const FCI: u32 = 48;

pub const BPFFCI: u32 = 49;

pub const BPJFCI: u32 = 50;

pub const PROC: u32 = 51;

pub const BPFPROC: u32 = 52;

pub const RIRSR: u32 = 53;

pub const BPJPROC: u32 = 54;

pub const RRA: u32 = 55;

pub const BPFRRA: u32 = 56;

pub const DAJUD: u32 = 57;

pub const QTMESES: u32 = 58;

pub const SCP: u32 = 59;

pub const BPFSCP: u32 = 60;

pub const RISCP: u32 = 61;

pub const BPJSCP: u32 = 62;

pub const PSE: u32 = 63;

pub const OPSE: u32 = 64;

pub const TPSE: u32 = 65;

pub const RTPSE: u32 = 66;

pub const DTPSE: u32 = 67;

pub const RDTPSE: u32 = 68;

pub const RPDE: u32 = 69;

pub const BRPDE: u32 = 70;

pub const VRPDE: u32 = 71;

pub const INF: u32 = 72;

pub const FIMDIRF: u32 = 73;
