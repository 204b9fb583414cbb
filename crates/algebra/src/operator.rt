ghost use Rattle.std.specs.Prelude.{◌≡◌};
ghost use Rattle.algebra.specs.Operators.{op_number, OpOf};

// The operators of two operands, with the numbers that netlists and calls give them.
#[derive(Clone, Copy, PartialEq, Eq, Debug)]
pub enum Op {
    And = 3,
    Or = 4,
    IfAnd = 5,
    IfOr = 6,
    Wire = 7,
    Grade = 9,
}

// A number that no operator has.
#[derive(Clone, Copy, PartialEq, Eq, Debug)]
pub struct UnknownOperator(pub u8);

impl From<Op> for u8 {
    ghost from_gives = { λ op n. n ≡ op_number op };

    fn from(op: Op) -> u8 {
        op as u8
    }
}

impl TryFrom<u8> for Op {
    type Error = UnknownOperator;

    ghost try_from_gives = { OpOf };

    fn try_from(number: u8) -> Result<Op, UnknownOperator> {
        match number {
            3 => Ok(Op::And),
            4 => Ok(Op::Or),
            5 => Ok(Op::IfAnd),
            6 => Ok(Op::IfOr),
            7 => Ok(Op::Wire),
            9 => Ok(Op::Grade),
            _ => Err(UnknownOperator(number)),
        }
    }
}
