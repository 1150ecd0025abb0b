// Reading an input until it ends or the space is full: what the programs read goes through here.
#![tactic(auto)]

ghost use Rattle.std.specs.Prelude.{◌≡◌, ◌≤◌, ◌<◌, length, take, IfOk, IfErr};
ghost use Rattle.std.specs.Io.KnownBytes.{Consumes, IsAtEnd, ReadConsumes};
ghost use Rattle.input.specs.Reading.{count_of};

use std::io::Read;

// A read failed, after so many bytes had come.
#[derive(Clone, Copy, Debug)]
pub struct ReadFailed {
    pub count: usize,
}

// One read: how many bytes came, none only at the end of the input or where there is no room. Nothing says when a read fails.
pub fn read_some<R: Read>(input: &mut R, buf: &mut [u8]) -> Result<usize, ReadFailed>
    ensures within { count_of result ≤ length buf.new }
    ensures bytes { ReadConsumes (R.remaining input.old) (R.remaining input.new) result buf.new }
    ensures none_where_failed { IfErr result (λ failed. failed ≡ record { count = 0 }) }
{
    input.read(buf).map_err(|_| ReadFailed { count: 0 })
}

// Reads until the input ends, a read fails or the buffer is full: a pipe may give any pieces.
pub fn read_all<R: Read>(input: &mut R, buf: &mut [u8]) -> Result<usize, ReadFailed>
    ensures within { count_of result ≤ length buf.new }
    ensures bytes { Consumes (R.remaining input.old) (R.remaining input.new) (take (count_of result) buf.new) }
    ensures short_at_end { IfOk result (λ count. count < length buf.new → IsAtEnd (R.remaining input.new)) }
    ensures short_where_failed { IfErr result (λ failed. failed.count < length buf.new) }
{
    let mut done = 0;
    // std's `read_exact` does not say how many bytes came before a failure, and reads on where a signal cuts a read short
    while done < buf.len() {
        match input.read(&mut buf[done..]) {
            Ok(0) => return Ok(done),
            Ok(count) => done += count,
            Err(_) => return Err(ReadFailed { count: done }),
        }
    }
    Ok(done)
}
