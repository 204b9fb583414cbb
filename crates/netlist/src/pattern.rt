ghost use Rattle.std.specs.Prelude.{◌^◌, ◌<◌, ◌≤◌};

mod calls;

// The most inputs of a pattern, and so of a table.
pub const MOST_INPUTS: u8 = 60;

// One pattern of input bits: `width` of them, input 0 the highest bit of `number`. No other pattern can be built.
#[derive(Clone, Copy)]
pub struct Pattern {
    width: u8,
    number: u64,
    ghost narrow: { width ≤ 60 },
    ghost within: { number < 2 ^ width },
}

// There is no such pattern.
#[derive(Clone, Copy, PartialEq, Eq, Debug)]
pub enum PatternFault {
    OutOfBounds = 29,
}
