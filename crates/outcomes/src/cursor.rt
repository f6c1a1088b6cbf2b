// Bytes laid out in a lent output, one behind the other.
ghost use Rattle.std.specs.Prelude.{◌≡◌, [], ◌∷◌};
ghost use Rattle.outcomes.specs.Wrote.{Stored};

// The output, and the place of the next byte. One that the output has no place for is not stored, and counts: laid out in no room, bytes are
// counted.
// Not std's `io::Cursor`: its write stops at the output's end, and this one counts on.
#[derive(Drop)]
pub struct Cursor<'a> {
    pub output: &'a mut [u8],
    pub at: usize,
}

impl<'a> Cursor<'a> {
    // From the front on.
    pub fn new(output: &'a mut [u8]) -> Cursor<'a>
        ensures same_reference { result.output.ghost_name ≡ output.entry.ghost_name }
        ensures front { (result.output.now ≡ output.old) × (result.at ≡ 0) }
    {
        Cursor { output, at: 0 }
    }

    pub fn put(&mut self, value: u8)
        ensures { Stored self.old self.new (value ∷ []) }
    {
        if self.at < self.output.len() {
            self.output[self.at] = value;
            self.at += 1;
        } else {
            self.at = self.at.saturating_add(1);
        }
    }

    pub fn put_all(&mut self, bytes: &[u8])
        ensures { Stored self.old self.new bytes.now }
    {
        // Where there is room for all they are copied at once.
        let end = self.at.saturating_add(bytes.len());
        if end <= self.output.len() {
            self.output[self.at..end].copy_from_slice(bytes);
            self.at = end;
            return;
        }
        for byte in bytes {
            self.put(*byte);
        }
    }
}
