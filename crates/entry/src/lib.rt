// The packed queue entry (01, 'Queue and names').
#![tactic(auto)]

ghost use Rattle.std.specs.Prelude.{◌≡◌};
ghost use Rattle.machine.specs.Queue.{packed_entry, unpacked_entry};

use machine::Entry;
use offset::Absolute;

// The word of an entry. By shifts and masks, as 01 lays a word out; an entry may have any numbers, so each is masked.
pub fn pack(e: Entry) -> u64
    ensures { result ≡ packed_entry e }
{
    (e.name as u64 & 15) << 48 | (e.thread as u64 & 0xffff_ffff) << 16 | e.place.0 as u64 & 0xffff
}

// The entry of a word.
pub fn unpack(w: u64) -> Entry
    ensures { result ≡ unpacked_entry w }
{
    let place = (w & 0xffff) as u32;
    let thread = ((w >> 16) & 0xffff_ffff) as u32;
    let name = ((w >> 48) & 15) as u8;
    Entry {
        place: Absolute(place),
        thread,
        name,
    }
}
