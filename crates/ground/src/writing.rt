// Bytes written one after the other into a lent buffer.
ghost use Rattle.std.specs.Prelude.{[], ◌∷◌, ◌≡◌, length};

// A lent buffer, and how many bytes at its front are taken.
#[derive(Drop)]
pub struct Writer<'a> {
    pub bytes: &'a mut [u8],
    pub len: usize,
}

impl<'a> Writer<'a> {
    ghost use Rattle.ground.specs.Writes.{Appended, Room};

    pub fn byte(&mut self, byte: u8)
        requires { Room self.old 1 }
        ensures { Appended self.old (byte ∷ []) self.new }
    {
        self.bytes[self.len] = byte;
        self.len += 1;
    }

    pub fn bytes(&mut self, bytes: &[u8])
        requires { Room self.old (length bytes.now) }
        ensures { Appended self.old bytes.now self.new }
    {
        let end = self.len + bytes.len();
        self.bytes[self.len..end].copy_from_slice(bytes);
        self.len = end;
    }
}
