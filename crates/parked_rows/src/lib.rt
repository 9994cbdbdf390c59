// A Coupled's parked messages in place: one more parked, the list emptied. Layout: docs/LAYOUT.md.
#![tactic(auto)]

ghost use Rattle.std.specs.Prelude.{◌≡◌, ◌<◌};
ghost use Rattle.rules.specs.Table as Table;
ghost use Rattle.memory.specs.Words.{place_in, begin_in, Own};
ghost use Rattle.memory.specs.View.{Row};
ghost use Rattle.parked_rows.specs.Parking.{Parks, Emptied};

use rules::Refusal;

// A message for a component is parked behind the Coupled's others; the 65th is 8.
pub fn park(
    mem: &mut [u64],
    row: usize,
    component: u64,
    port: u64,
    content: u32,
) -> Result<(), Refusal>
    requires { Row Table.coupled (begin_in mem.old row) mem.old row × (component < 65536) × (port < 65536) }
    ensures parks { Parks result (begin_in mem.old row) row mem.old mem.new (record { component = component; port = port; content = content }) }
    ensures owns { Own row (begin_in mem.old row) 64 0 0 mem.old mem.new }
    ensures place { place_in mem.new ≡ place_in mem.old }
{
    let held = memory::held_at(mem, row);
    if 64 <= held {
        return Err(Refusal::NoMessageRoom);
    }
    let begin = memory::begin_at(mem, row);
    let word = component * 0x1_0000_0000_0000 + port * 0x1_0000_0000 + content as u64;
    mem[begin + held as usize] = word;
    memory::set_head(mem, row, 0, 0, held + 1);
    Ok(())
}

// The Coupled's list is emptied: nothing counted, its places 0.
pub fn empty(mem: &mut [u64], row: usize)
    requires { Row Table.coupled (begin_in mem.old row) mem.old row }
    ensures emptied { Emptied (begin_in mem.old row) row mem.new }
    ensures owns { Own row (begin_in mem.old row) 64 0 0 mem.old mem.new }
    ensures place { place_in mem.new ≡ place_in mem.old }
{
    let held = memory::held_at(mem, row);
    let begin = memory::begin_at(mem, row);
    words::move_up(&mut mem[begin..begin + 64], held as usize, held as usize);
    memory::set_head(mem, row, 0, 0, 0);
}
