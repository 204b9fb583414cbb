ghost use Rattle.std.specs.Prelude.{◌≡◌};
ghost use Rattle.netlist.specs.Lines.{is_out};

use crate::kind::Kind;

// One line of a netlist: the number of its kind and two operands, any numbers. INPUT takes an input number and CONST a
// code; the other operands are numbers of earlier lines. NOT and OUT, like these two, ignore the second operand.
#[derive(Clone, Copy, PartialEq, Eq, Debug, Default)]
pub struct Line {
    pub kind: u8,
    pub first: u32,
    pub second: u32,
}

impl Line {
    pub fn is_out(self) -> bool
        ensures { result ≡ is_out self }
    {
        self.kind == u8::from(Kind::Out)
    }
}
