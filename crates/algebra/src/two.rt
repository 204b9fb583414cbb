ghost use Rattle.std.specs.Prelude.{◌≡◌, ◌<◌, refl};
ghost use Rattle.algebra.specs.Ops.{read};
ghost use Rattle.algebra.specs.Two.{two, two_laws};

use crate::code::read;
use crate::interface::Algebra;
use crate::operator::Op;

// The values 0 and 1, without WIRE.
#[derive(Clone, Copy)]
pub struct TwoValued;

const GRAVE_ORDER: [u8; 1] = [1];

// The bit that a code stands for.
fn bit(code: u8) -> u8
    ensures value { result ≡ read 2 code }
    ensures within { result < 2 }
{
    read::<2>(code)
}

impl Algebra for TwoValued {
    const COUNT: u8 = 2;

    ghost COUNT = { 2 };

    ghost ops = { two };

    ghost counts = { refl };

    ghost laws = { two_laws };

    fn turn(&self, code: u8) -> u8 {
        1 - bit(code)
    }

    fn is_settled(&self, _code: u8) -> bool {
        true
    }

    fn is_plain(&self, code: u8) -> bool {
        bit(code) == 0
    }

    fn has_wire(&self) -> bool {
        false
    }

    fn operate(&self, op: Op, left: u8, right: u8) -> u8 {
        match op {
            Op::And | Op::IfAnd => bit(left) & bit(right),
            Op::Or | Op::IfOr => bit(left) | bit(right),
            Op::Wire => 0,
            Op::Grade => bit(left) ^ bit(right),
        }
    }

    fn grave_order(&self) -> &'static [u8] {
        &GRAVE_ORDER
    }

    fn letter(&self, code: u8) -> u8 {
        b'0' + bit(code)
    }
}
