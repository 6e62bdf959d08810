// A warrior's body placed in the core (01, 'Load').
ghost use Rattle.std.specs.Prelude.{◌≡◌};
ghost use Rattle.program.specs.Program.{cells};
ghost use Rattle.warrior.specs.Tested.{placed_if};

use program::write_cells;

// Places a body: in the part of the core that begins at the place, and what is left from cell 0 on.
pub(crate) fn place_body(core: &mut [u64], place: usize, body: &[u8], size: u32)
    ensures { core.new ≡ placed_if core.old place (cells size body.now) }
{
    if core.len() <= place {
        return;
    }
    let count = body.len() / 12;
    if core.len() < count {
        return;
    }
    let room = core.len() - place;
    write_cells(&mut core[place..], body, size);
    if room < count {
        let rest = 12 * room;
        write_cells(core, &body[rest..], size);
    }
}
