ghost use Rattle.std.specs.Prelude.{◌≡◌, [], ◌∷◌, if◌then◌else◌};
ghost use Rattle.writers.specs.State.{State, Took, buffer_state, text_state};

// What a printer offers bytes to, one after another; each is taken or declined.
pub trait Writer {
    ghost state: { Self → State };

    // Whether the byte is taken, as its rule decides; where it is declined, nothing is taken.
    fn offer(&mut self, b: u8) -> bool
        ensures answer { result ≡ (state self.old).rule (state self.old).taken b }
        ensures took { Took (state self.old) (state self.new) (if result then b ∷ [] else []) };
}

// Takes bytes into a buffer while it has free places.
#[derive(Drop)]
pub struct BufferWriter<'a> {
    // The whole buffer: the bytes taken are its front.
    buffer: &'a mut [u8],
    count: usize,
}

impl<'a> BufferWriter<'a> {
    pub fn new(buffer: &'a mut [u8]) -> BufferWriter<'a>
        ensures empty { result.count ≡ 0 }
        ensures held { result.buffer.now ≡ buffer.old }
        ensures site { result.buffer.ghost_name ≡ buffer.entry.ghost_name }
    {
        BufferWriter { buffer, count: 0 }
    }
}

impl<'a> Writer for BufferWriter<'a> {
    ghost state = { λ w. buffer_state w.buffer.now w.count w.buffer.ghost_name };

    fn offer(&mut self, b: u8) -> bool {
        if self.count >= self.buffer.len() {
            return false;
        }
        // By index, since nothing is said of what a slice holds after `get_mut`.
        self.buffer[self.count] = b;
        self.count += 1;
        true
    }
}

// Takes only the next byte of a text.
#[derive(Drop)]
pub struct MatchingWriter<'a> {
    // The whole text: the bytes taken are its front.
    text: &'a [u8],
    count: usize,
}

impl<'a> MatchingWriter<'a> {
    pub fn new(text: &'a [u8]) -> MatchingWriter<'a>
        ensures empty { result.count ≡ 0 }
        ensures held { result.text.now ≡ text.now }
    {
        MatchingWriter { text, count: 0 }
    }
}

impl<'a> Writer for MatchingWriter<'a> {
    ghost state = { λ w. text_state w.text.now w.count };

    fn offer(&mut self, b: u8) -> bool {
        if self.text.get(self.count) != Some(&b) {
            return false;
        }
        self.count += 1;
        true
    }
}
