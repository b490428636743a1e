// The numbers of a line.
ghost use Rattle.std.specs.Prelude.{◌≡◌, ◌++◌, ◌+◌, ◌*◌, ◌≤◌, ◌<◌, length, drop};
ghost use Rattle.text.specs.Grammar.{digits_of, fitted};
ghost use Rattle.text.specs.Reads.{Digit, Reads, Gathers};

// A number too wide for the library counts as its largest.
pub fn narrow(x: u64) -> u32
    ensures { result ≡ fitted x }
{
    x.min(u64::from(u32::MAX)) as u32
}

// The digit that a byte stands for.
fn digit(b: u8) -> Option<u64>
    ensures { Digit b result }
{
    match b {
        b'0'..=b'9' => Some(u64::from(b - b'0')),
        _ => None,
    }
}

// The number that begins with the digits of `first`, not 0, and goes on at `from`, and the place after it.
fn rest_of(line: &[u8], from: usize, first: u64) -> Option<(u64, usize)>
    requires { (0 < first) × (from ≤ length line.now) }
    ensures { Reads (digits_of first ++ drop from line.now) line.now from result }
{
    let mut x = first;
    for i in from..line.len() {
        match digit(line[i]) {
            None => return Some((x, i)),
            Some(d) => {
                if (u64::MAX - d) / 10 < x {
                    return None;
                }
                x = 10 * x + d;
            }
        }
    }
    Some((x, line.len()))
}

// The longest run of digits from `from` on, read as a number, and the place after it.
pub fn number(line: &[u8], from: usize) -> Option<(u64, usize)>
    ensures { Reads (drop from line.now) line.now from result }
{
    let d = digit(*line.get(from)?)?;
    let next = from + 1;
    if 0 < d {
        return rest_of(line, next, d);
    }
    if next < line.len() && digit(line[next]).is_some() {
        return None;
    }
    Some((0, next))
}

// From `from` to the line's end, a space and a number in turn: how many numbers, which stand in front of `out`. A field has two bytes or
// more, so there is a place for each.
pub(crate) fn numbers(line: &[u8], from: usize, out: &mut [u64]) -> Option<usize>
    requires { length line.now ≤ from + 2 * length out.old + 1 }
    ensures { Gathers (drop from line.now) out.old out.new result }
{
    let mut i = from;
    let mut k: usize = 0;
    // A `while`: how far a turn goes is what `number` answers.
    while i < line.len() {
        if line[i] != b' ' {
            return None;
        }
        let (v, e) = number(line, i + 1)?;
        out[k] = v;
        k += 1;
        i = e;
    }
    Some(k)
}
