// Reading standard input into a buffer, for the programs. What the operating system gives is not stated.
#![tactic(auto)]

ghost use Rattle.std.specs.Prelude.{◌≤◌, ◌<◌, length, take, IfOk, IfErr, MatchResult};
ghost use Rattle.std.specs.Io.KnownBytes.{Consumes, IsAtEnd};

use std::io;
use std::io::Read;

// A read that failed: how many bytes stand at the buffer's start, and the error.
#[derive(Drop)]
pub struct Failed {
    pub filled: usize,
    pub error: io::Error,
}

// Reads until the buffer is full or the input ends, and answers how many bytes stand at its start.
pub fn fill<R: Read>(from: &mut R, buf: &mut [u8]) -> Result<usize, Failed>
    ensures ok { IfOk result (λ n. n ≤ length buf.new) }
    ensures err { IfErr result (λ failed. failed.filled ≤ length buf.new) }
    ensures bytes { MatchResult result (λ n. Consumes (R.remaining from.old) (R.remaining from.new) (take n buf.new))
        (λ failed. Consumes (R.remaining from.old) (R.remaining from.new) (take failed.filled buf.new)) }
    ensures end { IfOk result (λ n. n < length buf.new → IsAtEnd (R.remaining from.new)) }
{
    // no method of std: those try an interrupted read again, and say nothing of what was read before an error
    let mut filled = 0;
    while filled < buf.len() {
        match from.read(&mut buf[filled..]) {
            Ok(0) => break,
            Ok(more) => filled += more,
            Err(error) => return Err(Failed { filled, error }),
        }
    }
    Ok(filled)
}

// The same where a failed read counts as the input's end, for programs that must not fail.
pub fn read_full(from: &mut impl Read, buf: &mut [u8]) -> usize
    ensures { result ≤ length buf.new }
{
    fill(from, buf).unwrap_or_else(|failed| failed.filled)
}
