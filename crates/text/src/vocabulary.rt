// The words that lines begin with.
ghost use Rattle.std.specs.Prelude.{◌≡◌};
ghost use Rattle.text.specs.Grammar.{name_of, fits_of};
ghost use Rattle.text.specs.Reads.{Names, Words};

#[derive(Clone, Copy)]
pub enum Word {
    Plan,
    Dur,
    Fix,
    Go,
    Put,
    Cut,
    Show,
    Crit,
}

// Every word.
const WORDS: [Word; 8] = [
    Word::Plan,
    Word::Dur,
    Word::Fix,
    Word::Go,
    Word::Put,
    Word::Cut,
    Word::Show,
    Word::Crit,
];

impl Word {
    // The bytes of the word.
    pub(crate) fn name(self) -> &'static [u8]
        ensures { result.now ≡ name_of self }
    {
        match self {
            Word::Plan => b"plan",
            Word::Dur => b"dur",
            Word::Fix => b"fix",
            Word::Go => b"go",
            Word::Put => b"put",
            Word::Cut => b"cut",
            Word::Show => b"show",
            Word::Crit => b"crit",
        }
    }

    // So many numbers may follow the word.
    pub(crate) fn fits(self, count: usize) -> bool
        ensures { result ≡ fits_of self count }
    {
        match self {
            Word::Go | Word::Show | Word::Crit => count == 0,
            Word::Cut => count == 1,
            Word::Plan | Word::Fix => count == 2,
            Word::Put => 1 <= count,
            Word::Dur => true,
        }
    }
}

// The line begins with the name, up to a space or its end.
fn begins(line: &[u8], name: &[u8]) -> bool
    ensures { Names line.now name.now result }
{
    match line.strip_prefix(name) {
        Some(rest) => rest.is_empty() || rest[0] == b' ',
        None => false,
    }
}

// The word that a line begins with.
pub(crate) fn first_of(line: &[u8]) -> Option<Word>
    ensures { Words line.now result }
{
    for word in WORDS {
        if begins(line, word.name()) {
            return Some(word);
        }
    }
    None
}
