ghost use Rattle.std.specs.Prelude.{◌≡◌, ◌<◌, refl};
ghost use Rattle.algebra.specs.Ops.{read};
ghost use Rattle.algebra.specs.Five.{five, five_laws};

use crate::code::read;
use crate::interface::Algebra;
use crate::operator::Op;

// The values 0, 1, X (unknown), Z (floating) and S (shorted), with codes 0 to 4.
#[derive(Clone, Copy)]
pub struct FiveValued;

// A table has a row for each left operand, in the order 0, 1, X, Z, S.
const NOT: [u8; 5] = [1, 0, 2, 2, 4];

const AND: [u8; 25] = [
    0, 0, 0, 0, 4, //
    0, 1, 2, 2, 4, //
    0, 2, 2, 2, 4, //
    0, 2, 2, 2, 4, //
    4, 4, 4, 4, 4,
];

const OR: [u8; 25] = [
    0, 1, 2, 2, 4, //
    1, 1, 1, 1, 4, //
    2, 1, 2, 2, 4, //
    2, 1, 2, 2, 4, //
    4, 4, 4, 4, 4,
];

const WIRE: [u8; 25] = [
    4, 4, 4, 0, 4, //
    4, 4, 4, 1, 4, //
    4, 4, 4, 2, 4, //
    0, 1, 2, 3, 4, //
    4, 4, 4, 4, 4,
];

const IFAND: [u8; 25] = [
    0, 0, 0, 0, 0, //
    0, 1, 2, 3, 4, //
    2, 2, 2, 2, 4, //
    2, 2, 2, 2, 4, //
    4, 4, 4, 4, 4,
];

const IFOR: [u8; 25] = [
    0, 1, 2, 3, 4, //
    1, 1, 1, 1, 4, //
    2, 1, 2, 2, 4, //
    3, 1, 2, 3, 4, //
    4, 4, 4, 4, 4,
];

const GRADE: [u8; 25] = [
    0, 1, 2, 1, 4, //
    1, 0, 2, 1, 4, //
    2, 2, 2, 2, 2, //
    1, 1, 2, 0, 4, //
    4, 4, 2, 4, 4,
];

const GRAVE_ORDER: [u8; 3] = [1, 4, 2];

const LETTERS: [u8; 5] = *b"01XZS";

// The row or column of a code.
fn index(code: u8) -> usize
    ensures value { result ≡ read 5 code }
    ensures within { result < 5 }
{
    usize::from(read::<5>(code))
}

impl Algebra for FiveValued {
    const COUNT: u8 = 5;

    ghost COUNT = { 5 };

    ghost ops = { five };

    ghost counts = { refl };

    ghost laws = { five_laws };

    fn turn(&self, code: u8) -> u8 {
        NOT[index(code)]
    }

    fn is_settled(&self, code: u8) -> bool {
        index(code) != 3
    }

    fn is_plain(&self, code: u8) -> bool {
        index(code) == 0
    }

    fn has_wire(&self) -> bool {
        true
    }

    fn operate(&self, op: Op, left: u8, right: u8) -> u8 {
        let at = index(left) * 5 + index(right);
        match op {
            Op::And => AND[at],
            Op::Or => OR[at],
            Op::IfAnd => IFAND[at],
            Op::IfOr => IFOR[at],
            Op::Wire => WIRE[at],
            Op::Grade => GRADE[at],
        }
    }

    fn grave_order(&self) -> &'static [u8] {
        &GRAVE_ORDER
    }

    fn letter(&self, code: u8) -> u8 {
        LETTERS[index(code)]
    }
}
