// Which case comes next: its letter says.
use crate::files::{replay_check, replay_totals};
use crate::lines::{read_edition, replay_field, replay_line};
use crate::numbers::{
    replay_amount_read, replay_amount_written, replay_months_read, replay_months_written,
};
use crate::questions::{replay_search, replay_search_given};
use crate::stop::{BadCase, Stop};
use editions::Edition;
use std::io::Read;

#[derive(Clone, Copy)]
pub enum Case {
    Check,
    Totals,
    Search,
    SearchGiven,
    Line,
    LineByEdition,
    Field,
    AmountRead,
    MonthsRead,
    AmountWritten,
    MonthsWritten,
}

impl TryFrom<u8> for Case {
    type Error = BadCase;

    fn try_from(letter: u8) -> Result<Case, BadCase> {
        match letter {
            b'C' => Ok(Case::Check),
            b'N' => Ok(Case::Totals),
            b'S' => Ok(Case::Search),
            b'T' => Ok(Case::SearchGiven),
            b'W' => Ok(Case::Line),
            b'E' => Ok(Case::LineByEdition),
            b'F' => Ok(Case::Field),
            b'A' => Ok(Case::AmountRead),
            b'M' => Ok(Case::MonthsRead),
            b'a' => Ok(Case::AmountWritten),
            b'm' => Ok(Case::MonthsWritten),
            _ => Err(BadCase),
        }
    }
}

impl Case {
    // None at the end of the input.
    pub fn next(input: &mut impl Read) -> Result<Option<Case>, BadCase> {
        let mut letter = [0u8; 1];
        match input::read_some(input, &mut letter) {
            Ok(0) => Ok(None),
            Ok(_) => Case::try_from(letter[0]).map(Some),
            Err(_) => Err(BadCase),
        }
    }

    // Reads the rest of the case, and prints what it comes to. No struct of the two: what is read takes the input alone, and lent mutably.
    pub fn replay(self, rt: &impl Print, input: &mut impl Read) -> Result<(), Stop> {
        match self {
            Case::Check => replay_check(rt, input),
            Case::Totals => replay_totals(rt, input),
            Case::Search => replay_search(rt, input),
            Case::SearchGiven => replay_search_given(rt, input),
            Case::Line => replay_line(rt, input, Edition::Of2025),
            Case::LineByEdition => {
                let edition = read_edition(input)?;
                replay_line(rt, input, edition)
            }
            Case::Field => replay_field(rt, input),
            Case::AmountRead => replay_amount_read(rt, input),
            Case::MonthsRead => replay_months_read(rt, input),
            Case::AmountWritten => replay_amount_written(rt, input),
            Case::MonthsWritten => replay_months_written(rt, input),
        }
    }
}
