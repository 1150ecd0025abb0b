// The help desk's search: a file on standard input, the line of an IDREC and a CPF as words. The file is checked, and the person of that
// CPF is looked for below that IDREC. Prints the check's number, line and field, then the search's number, line and count.
#![tactic(auto)]

ghost use Rattle.std.specs.Prelude.{◌≤◌, ◌<◌, length, IfSome};

use std::io;
use std::rt::Env;

// Files of up to so many bytes, and as many lines as a file may have.
const BYTES: usize = 4194304;

const LINES: usize = 65536;

// What a search is asked, by the words of the command: the person of a CPF in this file, below the IDREC of a line.
#[derive(Clone, Copy)]
struct Question<'a> {
    file: &'a [u8],
    line: u32,
    cpf: &'a [u8],
}

impl Question<'_> {
    // The check fills the table, and the search is lent the entries of the lines that were read.
    fn look_up(&self, rt: &impl Print, table: &mut [u32]) -> io::Result<()> {
        let checked = checker::check(self.file, table);
        println!(rt; "{} {} {}", checked.number, checked.line, checked.field)?;
        let entries = search::entries(table, checked.entries);
        match search::search(self.file, entries, self.line, self.cpf) {
            Ok(found) => println!(rt; "0 {} {}", found.line, found.count),
            Err(refusal) => println!(rt; "{} 0 0", refusal.number()),
        }
    }
}

// The value of a digit.
fn digit(b: u8) -> Option<u32>
    ensures { IfSome result (λ value. value < 10) }
{
    char::from(b).to_digit(10)
}

// The word of digits as a number of 32 bits.
fn line_of(word: &[u8]) -> Option<u32> {
    word.iter().try_fold(
        0u32,
        |line, &b| line.checked_mul(10)?.checked_add(digit(b)?),
    )
}

// Word i of the command, where there is one and the space holds it.
fn word<'a>(rt: &impl Env, i: usize, space: &'a mut [u8]) -> Option<&'a [u8]>
    ensures { IfSome result (λ word. length word.now ≤ length space.old) }
{
    let count = rt.arg(i, space).ok()?;
    // std says how long the word is, and no more
    Some(&space[..count])
}

// A function of its own, since a proof over lists of these lengths in `main` works them out, and runs out of stack.
fn zeros<T: Copy + Default, const N: usize>() -> [T; N] {
    [T::default(); N]
}

fn main(rt: HostRuntime) -> io::Result<()> {
    let mut digits = [0u8; 16];
    let mut cpf = [0u8; 64];
    // one byte more than the longest file, so that a longer one is seen to be longer
    let mut file: [u8; BYTES + 1] = zeros();
    let mut table: [u32; LINES * checker::NUMBERS_AN_ENTRY] = zeros();
    // the search takes a number in any case, and 0 is no line's
    let line = word(&rt, 1, &mut digits).and_then(line_of).unwrap_or(0);
    let cpf = word(&rt, 2, &mut cpf).unwrap_or(&[]);
    // where a read fails, the bytes that came are checked, as if the file ended there
    let count = input::read_all(&mut rt.reader(), &mut file).unwrap_or_else(|failed| failed.count);
    if BYTES < count {
        // nothing on standard output: nothing there may be taken for acceptance
        return eprintln!(rt; "lookup: the file is too long");
    }
    // cut here, once: how many bytes came is a number on failure too
    let file = &file[..count];
    Question { file, line, cpf }.look_up(&rt, &mut table)
}
