// A place in a text that is read from left to right; none of the text is copied.
ghost use Rattle.std.specs.Prelude.{◌≡◌, ◌+◌, ◌<◌, ◌≤◌, true, false, ◌∷◌, length, drop, MatchOption};
ghost use Rattle.reader.specs.Bytes.{Eaten};

#[derive(Drop)]
pub struct Cursor<'t> {
    pub(crate) text: &'t [u8],
    pub(crate) at: usize,
    ghost within: { at ≤ length text.now },
}

impl<'t> Cursor<'t> {
    pub fn new(text: &'t [u8]) -> Cursor<'t>
        ensures { (result.text.now ≡ text.now) × (result.at ≡ 0) }
    {
        Cursor { text, at: 0 }
    }

    // How many bytes are passed.
    pub fn place(&self) -> usize
        ensures { result ≡ self.now.at }
    {
        self.at
    }

    // Whether no byte is left.
    pub fn at_end(&self) -> bool
        ensures ended { result ≡ true → length self.now.text.now ≤ self.now.at }
        ensures more { result ≡ false → self.now.at < length self.now.text.now }
    {
        self.at >= self.text.len()
    }

    // The byte at the place; none at the end.
    pub fn peek(&self) -> Option<u8>
        ensures { MatchOption result (self.now.at ≡ length self.now.text.now) (λ b. (self.now.at < length self.now.text.now) × (drop self.now.at self.now.text.now ≡ b ∷ drop (self.now.at + 1) self.now.text.now)) }
    {
        self.text.get(self.at).copied()
    }

    // The byte at the place, which moves past it; none at the end.
    pub fn take(&mut self) -> Option<u8>
        ensures text { self.new.text.now ≡ self.old.text.now }
        ensures byte { MatchOption result ((self.old.at ≡ length self.old.text.now) × (self.new.at ≡ self.old.at)) (λ b. (self.old.at < length self.old.text.now) × (self.new.at ≡ self.old.at + 1) × (drop self.old.at self.old.text.now ≡ b ∷ drop (self.old.at + 1) self.old.text.now)) }
    {
        let b = self.peek()?;
        self.at += 1;
        Some(b)
    }

    // Whether `byte` comes next, which is then passed.
    pub fn eat(&mut self, byte: u8) -> bool
        ensures text { self.new.text.now ≡ self.old.text.now }
        ensures eaten { Eaten self.old.text.now self.old.at byte result self.new.at }
    {
        match self.peek() {
            Some(b) if b == byte => {
                self.at += 1;
                true
            }
            _ => false,
        }
    }
}
