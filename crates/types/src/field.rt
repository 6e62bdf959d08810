// The number fields of an instruction, and their first bits in a cell's word: the A number's is 16, the B number's 0 (01, 'Cells').
ghost use Rattle.std.specs.Prelude.{◌≡◌};
ghost use Rattle.types.specs.Types.{first_bit};

// The bits themselves are for `word::number`, which takes any.
pub const A: u64 = 16;

pub const B: u64 = 0;

// A number field, in the order of their bits.
#[derive(Clone, Copy)]
pub enum Field {
    B,
    A,
}

impl Field {
    // Its first bit. By a match over the two a run takes up to 3 % more instructions.
    pub fn first_bit(self) -> u64
        ensures { result ≡ first_bit self }
    {
        self as u64 * 16
    }
}
