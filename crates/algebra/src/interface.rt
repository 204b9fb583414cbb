ghost use Rattle.std.specs.Prelude.{◌≡◌, ℕ};
ghost use Rattle.algebra.specs.Operators.{op_number, own_op};
ghost use Rattle.algebra.specs.Ops.{Ops, known};
ghost use Rattle.algebra.specs.Laws.{Laws};

use crate::operator::Op;

// An algebra of 2 to 16 values, with codes from 0. Every answer is fixed by what was asked and is a code; a code not
// below the count is read as 0, and an operator that the algebra lacks gives 0.
pub trait Algebra {
    // How many values there are.
    const COUNT: u8;

    ghost COUNT: { ℕ };

    ghost ops: { Ops };

    ghost counts: { COUNT ≡ ops.count };

    ghost laws: { Laws ops };

    // NOT.
    fn turn(&self, code: u8) -> u8
        ensures { result ≡ ops.turn code };

    fn is_settled(&self, code: u8) -> bool
        ensures { result ≡ ops.settled code };

    fn is_plain(&self, code: u8) -> bool
        ensures { result ≡ ops.plain code };

    fn has_wire(&self) -> bool
        ensures { result ≡ ops.wired };

    fn operate(&self, op: Op, left: u8, right: u8) -> u8
        ensures { result ≡ ops.op (op_number op) left right };

    // The non-zero grades, the gravest first.
    fn grave_order(&self) -> &'static [u8]
        ensures { result.now ≡ ops.grave };

    // The letter that reports print for a value.
    fn letter(&self, code: u8) -> u8
        ensures { result ≡ ops.letter code };

    // The operator of a number, where it has one and the algebra has it.
    fn operator(&self, number: u8) -> Option<Op>
        ensures { result ≡ own_op ops number }
    {
        match Op::try_from(number) {
            Ok(Op::Wire) if !self.has_wire() => None,
            named => named.ok(),
        }
    }

    // Whether a number is that of an operator that the algebra has.
    fn knows(&self, number: u8) -> bool
        ensures { result ≡ known ops number }
    {
        self.operator(number).is_some()
    }

    // The operator of a number, applied; an unknown number gives 0.
    fn operate_by_number(&self, number: u8, left: u8, right: u8) -> u8
        ensures { result ≡ ops.op number left right }
    {
        match Op::try_from(number) {
            Ok(op) => self.operate(op, left, right),
            Err(_) => 0,
        }
    }
}
