ghost use Rattle.std.specs.Prelude.{◌≡◌, ◌^◌, ◌<◌, if◌then◌else◌, bit_or};
ghost use Rattle.diagram.specs.Codes.{loose_codes, firm_codes};
ghost use Rattle.records.specs.Marks.{turn_mask};
ghost use Rattle.records.specs.Rules.{settled_code, firm_code, settled_mask, firm_mask, may_mark};
ghost use Rattle.records.specs.Stores.{up};

use super::Codes;
use algebra::Algebra;

// How many codes there can be.
pub(crate) const MOST_CODES: u8 = 16;

pub(crate) fn is_up(mask: u16, v: u8) -> bool
    requires { v < 16 }
    ensures { result ≡ up mask v }
{
    (mask >> v) % 2 == 1
}

fn is_settled_code<G: Algebra>(algebra: &G, v: u8) -> bool
    ensures { result ≡ settled_code G.ops v }
{
    v < G::COUNT && algebra.is_settled(v)
}

fn is_firm_code<G: Algebra>(algebra: &G, v: u8) -> bool
    ensures { result ≡ firm_code G.ops v }
{
    is_settled_code(algebra, v) && algebra.turn(v) != v
}

// The mask with bit `v` up if `add`.
fn with(mask: u16, v: u8, add: bool) -> u16
    requires { v < 16 }
    ensures { result ≡ (if add then bit_or mask (2 ^ v) else mask) }
{
    if add { mask | (1 << v) } else { mask }
}

impl<'a, G: Algebra> Codes<'a, G> {
    pub(crate) fn of(algebra: &'a G) -> Codes<'a, G> {
        let mut loose = 0;
        let mut firm = 0;
        // one pass makes both masks
        for v in 0..MOST_CODES {
            loose = with(loose, v, !is_settled_code(algebra, v));
            firm = with(firm, v, is_firm_code(algebra, v));
        }
        Codes {
            algebra,
            loose,
            firm,
        }
    }

    // The NOT of each value in a mask.
    pub(crate) fn turn_mask(&self, mask: u16) -> u16
        ensures { result ≡ turn_mask G.ops mask }
    {
        let mut turned = 0;
        for v in 0..MOST_CODES {
            turned = with(turned, self.algebra.turn(v), is_up(mask, v));
        }
        turned
    }

    // Whether a mask has settled values alone.
    pub(crate) fn settled(&self, mask: u16) -> bool
        ensures { result ≡ settled_mask G.ops mask }
    {
        mask & self.loose == 0
    }

    // Whether a mask has a firm value.
    pub(crate) fn some_firm(&self, mask: u16) -> bool
        ensures { result ≡ firm_mask G.ops mask }
    {
        mask & self.firm != 0
    }

    // Whether a place with this reach may be marked.
    pub(crate) fn may_mark(&self, mask: u16) -> bool
        ensures { result ≡ may_mark G.ops mask }
    {
        self.settled(mask) && self.some_firm(mask)
    }
}
