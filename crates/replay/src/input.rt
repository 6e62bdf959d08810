// The recorded battles, read from the front. Past the end of the input a byte is 0, and a part is empty.
ghost use Rattle.std.specs.Prelude.{◌≡◌, ◌-◌, length};

use std::io::Read;

// What is still to be read.
#[derive(Clone, Copy)]
pub(crate) struct Input<'a> {
    pub rest: &'a [u8],
}

impl<'a> Input<'a> {
    // The next N bytes.
    fn bytes<const N: usize>(&mut self) -> [u8; N]
        ensures { length self.new.rest.now ≡ length self.old.rest.now - N }
    {
        let mut bytes = [0; N];
        let _ = self.rest.read(&mut bytes);
        bytes
    }

    // The next byte. Of `from_le_bytes` std has no trait, so each type has a line of its own.
    pub(crate) fn byte(&mut self) -> u8
        ensures { length self.new.rest.now ≡ length self.old.rest.now - 1 }
    {
        u8::from_le_bytes(self.bytes())
    }

    // The number in the next two bytes.
    pub(crate) fn two(&mut self) -> u16
        ensures { length self.new.rest.now ≡ length self.old.rest.now - 2 }
    {
        u16::from_le_bytes(self.bytes())
    }

    // The number in the next four bytes.
    pub(crate) fn four(&mut self) -> u32
        ensures { length self.new.rest.now ≡ length self.old.rest.now - 4 }
    {
        u32::from_le_bytes(self.bytes())
    }

    // The next k bytes; none where there are not so many, and then the input is at its end.
    pub(crate) fn part(&mut self, k: usize) -> &'a [u8]
        ensures { length self.new.rest.now ≡ length self.old.rest.now - k }
    {
        let Some((part, rest)) = self.rest.split_at_checked(k) else {
            self.rest = &[];
            return &[];
        };
        self.rest = rest;
        part
    }
}
