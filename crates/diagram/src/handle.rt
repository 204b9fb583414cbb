// Handles: 0 to 15 are constants, place p has handle 16 + 2 p, and one more with a mark.
ghost use Rattle.std.specs.Prelude.{◌≡◌, ◌+◌, ◌≤◌, if◌then◌else◌, nat_lt};
ghost use Rattle.records.specs.Stores.{handle, place, marked};
ghost use Rattle.diagram.specs.Targets.{Aims};

// The handle of the first place: handles below it are constants.
const FIRST_PLACE: u32 = 16;

// What a handle leads to: a constant by its code, or a place, with or without a mark.
#[derive(Clone, Copy, PartialEq, Eq, Debug)]
pub(crate) enum Target {
    Constant(u8),
    Place { place: usize, marked: bool },
}

impl Target {
    pub(crate) fn of(h: u32) -> Target
        ensures { Aims h result }
    {
        if is_constant(h) {
            return Target::Constant(h as u8);
        }
        // after a test, and not by `checked_sub`, with which a walk takes up to 3 in a hundred more instructions
        let n = h - FIRST_PLACE;
        Target::Place {
            place: (n / 2) as usize,
            marked: n % 2 == 1,
        }
    }
}

pub(crate) fn is_constant(h: u32) -> bool
    ensures { result ≡ nat_lt h 16 }
{
    h < FIRST_PLACE
}

// The handle of a place, with no mark.
pub(crate) fn handle_of(p: usize) -> u32
    requires { p ≤ 1048576 }
    ensures { result ≡ handle p }
{
    FIRST_PLACE + 2 * p as u32
}

// The handle of a place, with a mark or without.
pub(crate) fn handle_with(p: usize, mark: bool) -> u32
    requires { p ≤ 1048576 }
    ensures { result ≡ (if mark then handle p + 1 else handle p) }
{
    if mark { handle_of(p) + 1 } else { handle_of(p) }
}
