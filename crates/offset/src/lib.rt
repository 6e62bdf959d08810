// Offsets of the circular core (01, 'Offsets'): absolute ones and relative ones, joined only by `add`.
#![tactic(auto)]

ghost use Rattle.std.specs.Prelude.{◌≡◌, ◌<◌, ◌%◌, cond, eqb, ltb};
ghost use Rattle.offset.specs.Offset.{euclid, ahead};

// A place of the core.
#[derive(Clone, Copy, Debug, PartialEq, Eq)]
pub struct Absolute(pub u32);

// A field number, counted from a place.
#[derive(Clone, Copy, Debug, PartialEq, Eq)]
pub struct Relative(pub u32);

// Whether a place is one of a core of that size.
pub fn within(a: Absolute, size: u32) -> bool
    ensures { result ≡ ltb a.0 size }
{
    a.0 < size
}

// A remainder, 0 by 0: a number below the size is its own, which takes no division.
pub fn remainder(n: u64, size: u32) -> u32
    ensures { result ≡ cond (eqb size 0) 0 (n % size) }
{
    let m = size as u64;
    if n < m {
        let r = n as u32;
        return r;
    }
    if m == 0 {
        return 0;
    }
    let r = (n % m) as u32;
    r
}

// A number, reduced by Euclidean remainder; 0 in a core of no cells. `!n` is -(n + 1). Not `rem_euclid`, which divides each number.
pub fn reduce(n: i32, size: u32) -> Relative
    ensures { result.0 ≡ euclid n size }
{
    if size == 0 {
        return Relative(0);
    }
    if n < 0 {
        let k = !n as u32;
        let r = size - 1 - remainder(k as u64, size);
        Relative(r)
    } else {
        let k = n as u32;
        Relative(remainder(k as u64, size))
    }
}

// The reduced sum of two numbers, for numbers below the size by compare and subtract; 0 for a size of 0.
pub fn ahead(a: u32, b: u32, size: u32) -> u32
    ensures { result ≡ cond (eqb size 0) 0 (ahead size a b) }
{
    let m = size as u64;
    let whole = a as u64 + b as u64;
    if whole < m {
        let s = whole as u32;
        return s;
    }
    if whole < m + m {
        let s = (whole - m) as u32;
        return s;
    }
    remainder(whole, size)
}

// The one reducing addition: the place that lies a field number past a place.
pub fn add(a: Absolute, r: Relative, size: u32) -> Absolute
    ensures { result.0 ≡ cond (eqb size 0) 0 (ahead size a.0 r.0) }
{
    Absolute(ahead(a.0, r.0, size))
}

// The reduced sum of two field numbers. It is a twin of `add`, since 01 keeps places and field numbers apart.
pub fn plus(a: Relative, b: Relative, size: u32) -> Relative
    ensures { result.0 ≡ cond (eqb size 0) 0 (ahead size a.0 b.0) }
{
    Relative(ahead(a.0, b.0, size))
}
