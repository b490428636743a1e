// An input, from any reader.
ghost use Rattle.std.specs.Prelude.{◌≡◌, ◌≤◌, ◌<◌, ◌-◌, length, take, drop, replicate, IfOk, MatchResult};
ghost use Rattle.std.specs.Io.KnownBytes.{Consumes, IsAtEnd};

use std::io;
use std::io::{ErrorKind, Read};

// Reads until the places are full or the input ends, and answers how many bytes stand in front then. A read that a signal interrupts is made again.
fn read_up<R: Read>(from: &mut R, input: &mut [u8]) -> io::Result<usize>
    ensures within { IfOk result (λ n. n ≤ length input.new) }
    ensures bytes { IfOk result (λ n. Consumes (R.remaining from.old) (R.remaining from.new) (take n input.new)) }
    ensures end { IfOk result (λ n. n < length input.new → IsAtEnd (R.remaining from.new)) }
{
    let mut n: usize = 0;
    for _ in 0..u64::MAX {
        if input.len() <= n {
            return Ok(n);
        }
        match from.read(&mut input[n..]) {
            Ok(0) => return Ok(n),
            Ok(k) => n += k,
            Err(e) => {
                if e.kind() != ErrorKind::Interrupted {
                    return Err(e);
                }
            }
        }
    }
    Err(io::Error::from(ErrorKind::Interrupted))
}

// The same, and the places behind those bytes are 0; after an error all are.
pub fn read_full<R: Read>(from: &mut R, input: &mut [u8]) -> io::Result<usize>
    ensures within { IfOk result (λ n. n ≤ length input.new) }
    ensures bytes { IfOk result (λ n. Consumes (R.remaining from.old) (R.remaining from.new) (take n input.new)) }
    ensures end { IfOk result (λ n. n < length input.new → IsAtEnd (R.remaining from.new)) }
    ensures rest { MatchResult result (λ n. drop n input.new ≡ replicate (length input.new - n) 0)
        (λ e. input.new ≡ replicate (length input.new) 0) }
{
    let read = read_up(from, input);
    let n = match &read {
        Ok(n) => *n,
        Err(_) => 0,
    };
    input[n..].fill(0);
    read
}
