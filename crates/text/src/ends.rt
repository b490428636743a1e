// Where a line ends.
ghost use Rattle.text.specs.Reads.{Ends};

// The place of the first such byte from `from` on.
pub fn find(input: &[u8], from: usize, byte: u8) -> Option<usize>
    ensures { Ends byte input.now from result }
{
    for i in from..input.len() {
        if input[i] == byte {
            return Some(i);
        }
    }
    None
}

// The place of the first LF from `from` on.
pub fn line_end(input: &[u8], from: usize) -> Option<usize>
    ensures { Ends 10 input.now from result }
{
    find(input, from, b'\n')
}
