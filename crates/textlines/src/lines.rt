// Lines that end with byte 10; the last may lack it.
ghost use Rattle.std.specs.Prelude.{◌≡◌, ◌≤◌, [], length, MatchOption};
ghost use Rattle.std.specs.Iterator.{at_most};
ghost use Rattle.textlines.specs.Lines.{line_length, Next};

const LINE_END: u8 = 10;

// How many bytes the first line of `text` has, without its end.
pub fn line_length(text: &[u8]) -> usize
    ensures first { result ≡ line_length text.now }
    ensures within { result ≤ length text.now }
{
    text.iter()
        .position(|b| *b == LINE_END)
        .unwrap_or(text.len())
}

// The lines of a text, one after another: what is left of it.
#[derive(Drop)]
pub struct Lines<'a> {
    rest: &'a [u8],
}

impl<'a> Lines<'a> {
    pub fn new(text: &'a [u8]) -> Lines<'a>
        ensures { result.rest.now ≡ text.now }
    {
        Lines { rest: text }
    }
}

impl<'a> Iterator for Lines<'a> {
    type Item = &'a [u8];

    ghost next_gives = { λ s r t. MatchOption r ((s.rest.now ≡ []) × (t.rest.now ≡ [])) (λ line. Next s.rest.now line.now t.rest.now) };

    ghost remaining = { λ s. at_most (length s.rest.now) };

    // The next line, without its end; none where nothing is left.
    fn next(&mut self) -> Option<&'a [u8]> {
        if self.rest.is_empty() {
            return None;
        }
        let (line, rest) = self.rest.split_at(line_length(self.rest));
        self.rest = rest.get(1..).unwrap_or(rest);
        Some(line)
    }
}
