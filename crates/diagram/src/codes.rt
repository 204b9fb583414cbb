ghost use Rattle.std.specs.Prelude.{◌≡◌};
ghost use Rattle.diagram.specs.Codes.{loose_codes, firm_codes};

use algebra::Algebra;

mod masks;

pub(crate) use masks::{MOST_CODES, is_up};

// An algebra with two masks of its codes: those that are not settled, and those that are firm, settled and different from
// their NOT. They are asked for once in a call, so that a test of a mask is one operation on bits.
#[derive(Drop)]
pub(crate) struct Codes<'a, G: Algebra> {
    pub algebra: &'a G,
    pub loose: u16,
    pub firm: u16,
    ghost loose_is: { loose ≡ loose_codes G.ops },
    ghost firm_is: { firm ≡ firm_codes G.ops },
}
