// How the answers to a case are printed.
use crate::pattern;
use checker::Answer;
use std::fmt;

// Number, line, field and entries.
// As desk prints it: checker, which has the Answer, is in the library for C and prints nothing.
#[derive(Clone, Copy)]
pub struct Checked(pub Answer);

impl fmt::Display for Checked {
    fn fmt<W: fmt::Write>(&self, f: &mut fmt::Formatter<W>) -> fmt::Result {
        let Answer {
            number,
            line,
            field,
            entries,
        } = self.0;
        write!(f, "{number} {line} {field} {entries}")
    }
}

// The numbers of a table, each behind a blank.
#[derive(Clone, Copy)]
pub struct Numbers<'a>(pub &'a [u32]);

impl fmt::Display for Numbers<'_> {
    fn fmt<W: fmt::Write>(&self, f: &mut fmt::Formatter<W>) -> fmt::Result {
        for number in self.0 {
            write!(f, " {number}")?;
        }
        Ok(())
    }
}

// Each kind whose total is not 0, with it.
#[derive(Clone, Copy)]
pub struct Totals<'a>(pub &'a [u64]);

impl fmt::Display for Totals<'_> {
    fn fmt<W: fmt::Write>(&self, f: &mut fmt::Formatter<W>) -> fmt::Result {
        for (kind, total) in self.0.iter().enumerate() {
            if *total != 0 {
                write!(f, " {kind} {total}")?;
            }
        }
        Ok(())
    }
}

// How many bytes of an output were written, whether those behind them are as they were, and the written ones in hexadecimal. The whole
// output stands beside the count, since those behind are asked too.
#[derive(Clone, Copy)]
pub struct Written<'a> {
    pub count: usize,
    pub out: &'a [u8],
}

impl fmt::Display for Written<'_> {
    fn fmt<W: fmt::Write>(&self, f: &mut fmt::Formatter<W>) -> fmt::Result {
        let Written { count, out } = *self;
        let rest = u8::from(pattern::is_kept(out, count));
        write!(f, "{count} {rest}")?;
        // no blank either where nothing was written
        if count != 0 {
            write!(f, " ")?;
        }
        for byte in out.iter().take(count) {
            write!(f, "{byte:02x}")?;
        }
        Ok(())
    }
}
