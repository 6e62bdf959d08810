// A warrior as it is handed in, and whether its name is valid (01, 'Load' and answer 5).
#![tactic(auto)]

ghost use Rattle.std.specs.Prelude.{◌≡◌};
ghost use Rattle.metadata.specs.Metadata.{valid_name, called};

// A warrior: its name, the bytes of its body, the first instruction to run, and the place in the core of its body. No Option of an origin: a match file has 65,535 for none, and so has C.
#[derive(Clone, Copy)]
pub struct Warrior<'a> {
    pub name: &'a [u8],
    pub body: &'a [u8],
    pub origin: u16,
    pub place: u32,
}

// The bytes of the longest name.
pub const LONGEST: usize = 32;

// Whether a name has at most 32 bytes, each of 33 to 126.
pub fn valid_name(name: &[u8]) -> bool
    ensures { result ≡ valid_name name.now }
{
    name.len() <= LONGEST && name.iter().all(|b| (33..=126).contains(b))
}

// What a warrior is called: by its name, or Warrior0 where that is empty.
pub fn called(name: &[u8]) -> &[u8]
    ensures { result.now ≡ called name.now }
{
    if name.is_empty() {
        return b"Warrior0";
    }
    name
}
