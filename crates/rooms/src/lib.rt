// The room of a live number among the 32 rooms, and the lowest free one, whose number is 0.
#![tactic(auto)]

ghost use Rattle.rooms.specs.Places.{Found};

use tables::Program;

// The first room whose number is i.
pub fn find_room(ids: &[u32; Program::ROOMS], i: u32) -> Option<usize>
    ensures { Found ids.now i result }
{
    ids.iter().position(|&id| id == i)
}
