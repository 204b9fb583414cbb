ghost use Rattle.std.specs.Prelude.{◌≡◌};
ghost use Rattle.diagram.specs.Tasks.{number_of, key_of};
ghost use Rattle.records.specs.Walks.{combine};

use algebra::{Algebra, Op};
use memo::Key;

// What a walk makes of two signals: NOT of the first, or an operator of both.
#[derive(Clone, Copy)]
pub(crate) enum Operation {
    Turn,
    Join(Op),
}

// An operation of two handles; NOT has its one handle twice, so that a walk splits every task alike.
#[derive(Clone, Copy)]
pub(crate) struct Task {
    pub operation: Operation,
    pub x: u32,
    pub y: u32,
}

impl Operation {
    // The number under which memos file it; NOT has one that no operator has.
    pub(crate) fn number(self) -> u8
        ensures { result ≡ number_of self }
    {
        match self {
            Operation::Turn => 2,
            Operation::Join(op) => u8::from(op),
        }
    }

    // What it makes of two values.
    pub(crate) fn at<G: Algebra>(self, algebra: &G, x: u8, y: u8) -> u8
        ensures { result ≡ combine G.ops (number_of self) x y }
    {
        match self {
            Operation::Turn => algebra.turn(x),
            Operation::Join(op) => algebra.operate(op, x, y),
        }
    }
}

impl Task {
    // What memos file its result under.
    pub(crate) fn key(self) -> Key
        ensures { result ≡ key_of self }
    {
        Key {
            x: self.x,
            y: self.y,
            op: self.operation.number(),
        }
    }
}
