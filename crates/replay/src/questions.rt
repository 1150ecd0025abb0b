// The cases of the search: over the table that the check writes, and over a given one.
use crate::limits::{BYTES, NUMBERS};
use crate::parts::{read_bytes, read_list, read_number, read_room};
use crate::stop::{BadCase, Stop};
use std::io;
use std::io::Read;

// lookup has one too, of a command's words: the two have one call of search in common.
// What a search is asked beside its table.
#[derive(Clone, Copy)]
struct Question<'a> {
    file: &'a [u8],
    line: u32,
    key: &'a [u8],
}

impl<'a> Question<'a> {
    fn read(
        input: &mut impl Read,
        file: &'a mut [u8],
        key: &'a mut [u8],
    ) -> Result<Question<'a>, BadCase> {
        Ok(Question {
            file: read_bytes(input, file)?,
            line: read_number(input)?,
            key: read_bytes(input, key)?,
        })
    }

    fn ask(&self, rt: &impl Print, table: &[u32]) -> io::Result<()> {
        match search::search(self.file, table, self.line, self.key) {
            Ok(found) => println!(rt; "0 {} {}", found.line, found.count),
            Err(refusal) => println!(rt; "{} 0 0", refusal.number()),
        }
    }
}

// The entries that the check of the file writes into so many numbers, and nothing more lent.
pub fn replay_search(rt: &impl Print, input: &mut impl Read) -> Result<(), Stop> {
    let mut numbers = [0u32; NUMBERS];
    let mut file = [0u8; BYTES];
    let mut key = [0u8; BYTES];
    let table = read_room(input, &mut numbers)?;
    let question = Question::read(input, &mut file, &mut key)?;
    let answer = checker::check(question.file, table);
    question.ask(rt, search::entries(table, answer.entries))?;
    Ok(())
}

// It reads as the one above does, but for the table; a closure for that would read the input between two of these lines, no plainer.
pub fn replay_search_given(rt: &impl Print, input: &mut impl Read) -> Result<(), Stop> {
    let mut numbers = [0u32; NUMBERS];
    let mut file = [0u8; BYTES];
    let mut key = [0u8; BYTES];
    let table = read_list(input, &mut numbers)?;
    let question = Question::read(input, &mut file, &mut key)?;
    question.ask(rt, table)?;
    Ok(())
}
