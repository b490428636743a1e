// Numbers in a row of fixed room, and the arguments of a call as they are read. What doesn't fit is left out.
ghost use Rattle.std.specs.Prelude.{◌+◌, ◌<◌, ◌≤◌, length, IfSome};
ghost use Rattle.rules.specs.Sizes.{most_entries};

use rules::Plan;
use text::fields::number;

// Places for a list that a call is asked with: more than it may have.
pub(crate) const LIST: usize = Plan::FIXED + Plan::ENTRIES;

// Places for the numbers of a line: a load has four lists.
const NUMBERS: usize = 4 * LIST;

// The numbers of a line, or of an answer.
#[derive(Drop)]
pub(crate) struct Numbers {
    all: [i64; NUMBERS],
    length: usize,
    ghost few: { length ≤ 16384 },
}

impl Numbers {
    pub(crate) fn new() -> Self {
        Numbers {
            all: [0i64; NUMBERS],
            length: 0,
        }
    }

    pub(crate) fn as_slice(&self) -> &[i64] {
        &self.all[..self.length]
    }

    pub(crate) fn clear(&mut self) {
        self.length = 0;
    }

    pub(crate) fn push(&mut self, x: i64) {
        if self.length < NUMBERS {
            self.all[self.length] = x;
            self.length += 1;
        }
    }

    // A number of the library; one that is too wide is -1.
    pub(crate) fn count(&mut self, x: u64) {
        self.push(signed(x));
    }

    // The fields of a line from a place on.
    pub(crate) fn read(&mut self, line: &[u8], from: usize) {
        let mut at = from;
        // A `while`: how far a turn goes is what `field` answers.
        while at < line.len() {
            let Some((v, end)) = field(line, at) else {
                return;
            };
            self.push(v);
            at = end;
        }
    }
}

fn signed(x: u64) -> i64 {
    i64::try_from(x).unwrap_or(-1)
}

// The field at a place: a space and a number with its sign, and the place after it.
fn field(line: &[u8], at: usize) -> Option<(i64, usize)>
    requires { at < length line.now }
    ensures { IfSome result (λ r. at < r.1) }
{
    if line[at + 1..].starts_with(b"-") {
        let (v, end) = number(line, at + 2)?;
        return Some((-i64::try_from(v).ok()?, end));
    }
    let (v, end) = number(line, at + 1)?;
    Some((signed(v), end))
}

// A number of the library's lists. One of the text that is too wide is its largest; so is -1, as which one of 2^63 or more was read.
pub(crate) trait Number: Copy {
    fn of(x: i64) -> Self;

    fn wide(self) -> u64;
}

impl Number for u32 {
    fn of(x: i64) -> u32 {
        u32::try_from(x).unwrap_or(u32::MAX)
    }

    fn wide(self) -> u64 {
        u64::from(self)
    }
}

impl Number for u64 {
    fn of(x: i64) -> u64 {
        u64::try_from(x).unwrap_or(u64::MAX)
    }

    fn wide(self) -> u64 {
        self
    }
}

// What is left to read of a call's arguments.
#[derive(Drop)]
pub(crate) struct Args<'a> {
    pub(crate) rest: &'a [i64],
}

impl<'a> Args<'a> {
    // The next number; 0 where there is none.
    fn next(&mut self) -> i64 {
        match self.rest {
            [first, rest @ ..] => {
                self.rest = rest;
                *first
            }
            [] => 0,
        }
    }

    // A job, an owner or a position.
    pub(crate) fn number(&mut self) -> u32 {
        u32::of(self.next())
    }

    fn length(&mut self) -> usize {
        usize::try_from(self.next()).unwrap_or(0)
    }

    // A room for answers, as far as there are places in a list of as many as a route has.
    pub(crate) fn room(&mut self) -> usize
        ensures { result ≤ most_entries }
    {
        self.length().min(Plan::ENTRIES)
    }

    // A list: its length, then its elements. How many of them `out` has.
    pub(crate) fn list<T: Number>(&mut self, out: &mut [T]) -> usize
        ensures { result ≤ length out.new }
    {
        let n = self.length();
        let (items, rest) = self.rest.split_at(n.min(self.rest.len()));
        self.rest = rest;
        for (place, x) in out.iter_mut().zip(items) {
            *place = T::of(*x);
        }
        n.min(out.len())
    }
}
