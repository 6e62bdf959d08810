// Text in memory that is lent for it, from the front.
ghost use Rattle.std.specs.Prelude.{◌≡◌, [], ◌∷◌, ◌+◌, ◌≤◌, ◌<◌, length};
ghost use Rattle.printing.specs.Text as spec;
ghost use Rattle.printing.specs.Inner.Adding.{Adds};

use encoding::store::copy;
use lent::sized;
use machine::Header;
use names::name_at;

// The memory, and how many bytes are put. Not `write!`, which gives a Result: the bytes are promised one by one.
#[derive(Drop)]
pub(crate) struct Text<'a> {
    memory: &'a mut [u8],
    pub length: usize,
}

impl<'a> Text<'a> {
    // Nothing is put yet.
    pub(crate) fn new(memory: &'a mut [u8]) -> Self
        ensures same_reference { result.memory.ghost_name ≡ memory.entry.ghost_name }
        ensures same_bytes { result.memory.now ≡ memory.old }
        ensures empty { result.length ≡ 0 }
    {
        Text { memory, length: 0 }
    }

    // Puts the bytes of a slice.
    fn bytes(&mut self, bytes: &[u8])
        requires { self.old.length + length bytes.now ≤ length self.old.memory.now }
        ensures { Adds self.old self.new bytes.now }
    {
        copy(self.memory, self.length, bytes);
        self.length += bytes.len();
    }

    // Puts a byte.
    pub(crate) fn byte(&mut self, b: u8)
        requires { self.old.length < length self.old.memory.now }
        ensures { Adds self.old self.new (b ∷ []) }
    {
        self.bytes(&[b]);
    }

    // Puts a number in decimal digits.
    pub(crate) fn decimal(&mut self, n: u64)
        requires { self.old.length + 20 ≤ length self.old.memory.now }
        ensures adds { Adds self.old self.new (spec.decimal n) }
        ensures short { self.new.length ≤ self.old.length + 20 }
    {
        let mut digits = [0u8; 20];
        let k = io::decimal(n, &mut digits);
        self.bytes(&digits[..k]);
    }

    // Puts a name, and its count.
    fn name(&mut self, name: &[u8], count: u32)
        requires { self.old.length + length name.now + 22 ≤ length self.old.memory.now }
        ensures adds { Adds self.old self.new (spec.line_of name.now count) }
        ensures short { self.new.length ≤ self.old.length + length name.now + 22 }
    {
        self.bytes(name);
        self.byte(b' ');
        self.decimal(count as u64);
        self.byte(b'\n');
    }

    // Puts the names held and their counts. That no more than 16 are held is tested before: C's header may say any number.
    pub(crate) fn names(&mut self, h: Header)
        requires { (self.old.length + 8640 ≤ length self.old.memory.now) × (h.names.held ≤ 16) }
        ensures { Adds self.old self.new (spec.name_lines h 0 h.names.held) }
    {
        // The check takes no array's length from a field's type.
        sized(&h.names.bytes, &h.names.lengths, &h.counts, &h.threads);
        let counts = &h.counts[..h.names.held as usize];
        for (i, count) in counts.iter().enumerate() {
            self.name(name_at(&h.names, i), *count);
        }
    }
}
