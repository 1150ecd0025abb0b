// Builds document 01's file of six lines with the line writer, one line after the other, on standard output.
#![tactic(auto)]

use editions::Edition;
use records::{BPFSCP, DECPF, DIRF, FIMDIRF, RESPO, SCP};
use std::io;

// A line to be written: its kind, as docs/KINDS.md has it, the contents of its fields one after another, and their lengths, as the line
// writer takes them.
#[derive(Clone, Copy)]
struct Line<'a> {
    kind: u32,
    contents: &'a [u8],
    lengths: &'a [usize],
}

impl Line<'_> {
    // Of a refused line nothing is written, and the next one follows.
    fn put(&self, rt: &(impl Print + Eprint)) -> io::Result<()> {
        let mut out = [0u8; 1026];
        let Line {
            kind,
            contents,
            lengths,
        } = *self;
        match writer::write_line(Edition::Of2025, kind, contents, lengths, &mut out) {
            Ok(count) => rt.write_all(fields::part(&out, 0, count)),
            Err(_) => eprintln!(rt; "sample: a line was refused"),
        }
    }
}

// The six lines in their order.
const LINES: [Line; 6] = [
    Line {
        kind: DIRF,
        contents: b"Dirf20252024NR6GP3ZA",
        lengths: &[4, 4, 4, 1, 0, 7],
    },
    Line {
        kind: RESPO,
        contents: b"RESPO11144477735ANA LIMA1133334444",
        lengths: &[5, 11, 8, 2, 8, 0, 0, 0],
    },
    Line {
        kind: DECPF,
        contents: b"DECPF11144477735ANA LIMANNNSNN",
        lengths: &[5, 11, 8, 1, 1, 1, 1, 1, 0, 0, 1, 0, 0, 0, 0],
    },
    Line {
        kind: SCP,
        contents: b"SCP11222333000181SCP SERRA",
        lengths: &[3, 14, 9],
    },
    Line {
        kind: BPFSCP,
        contents: b"BPFSCP11144477735ANA LIMA",
        lengths: &[6, 11, 8, 0],
    },
    Line {
        kind: FIMDIRF,
        contents: b"FIMDirf",
        lengths: &[7],
    },
];

fn main(rt: HostRuntime) -> io::Result<()> {
    for line in &LINES {
        line.put(&rt)?;
    }
    Ok(())
}
