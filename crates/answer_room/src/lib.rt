// The room that the answer to a line of the planner's program takes at most: that of a picture.

#![tactic(auto)]

ghost use Rattle.std.specs.Prelude.{◌≡◌, leb};
ghost use Rattle.answer_room.specs.Room.{line_room};

use picture::PICTURE_ROOM;

// The most bytes that a line's answer takes.
pub const LINE_ROOM: usize = PICTURE_ROOM;

// Whether so many bytes have room for an answer.
pub fn has_room(bytes: usize) -> bool
    ensures { result ≡ leb line_room bytes }
{
    LINE_ROOM <= bytes
}
