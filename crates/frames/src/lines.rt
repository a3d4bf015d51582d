// An input is lines, each ended by a line feed; the last may lack it.

ghost use Rattle.std.specs.Prelude.{◌≡◌, ◌==◌, [], ◌∷◌, MatchOption, position};
ghost use Rattle.frames.specs.Lines.{FirstLine, lines_of};

// Where the first line ends, if it has an end.
fn line_end(input: &[u8]) -> Option<usize>
    ensures { result ≡ position (λ b. b == 10) input.now }
{
    input.iter().position(|b| *b == b'\n')
}

// The first line, without its end, and the rest of the input after it; nothing where the input has no byte.
pub fn split_line(input: &[u8]) -> Option<(&[u8], &[u8])>
    ensures parts { MatchOption result (input.now ≡ []) (λ p. FirstLine input.now p.0.now p.1.now) }
    ensures lines { MatchOption result (lines_of input.now ≡ []) (λ p. lines_of input.now ≡ p.0.now ∷ lines_of p.1.now) }
{
    if input.is_empty() {
        return None;
    }
    match line_end(input) {
        Some(end) => Some((&input[..end], &input[end + 1..])),
        None => Some((input, &[])),
    }
}

// What is left of an input, line by line.
#[derive(Drop)]
pub struct Lines<'a> {
    rest: &'a [u8],
}

impl<'a> Lines<'a> {
    ghost use Rattle.frames.specs.Left.{lines_left};

    // All lines of the input.
    pub fn new(input: &'a [u8]) -> Lines<'a>
        ensures { lines_left result ≡ lines_of input.now }
    {
        Lines { rest: input }
    }
}

impl<'a> Iterator for Lines<'a> {
    ghost use Rattle.std.specs.Iterator.{YieldsFirstRef, item_count};
    ghost use Rattle.frames.specs.Left.{lines_left};

    type Item = &'a [u8];

    ghost next_gives = { YieldsFirstRef lines_left };

    ghost remaining = { item_count lines_left };

    fn next(&mut self) -> Option<&'a [u8]> {
        let (line, rest) = split_line(self.rest)?;
        self.rest = rest;
        Some(line)
    }
}
