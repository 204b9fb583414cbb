// Making the record of an input and two sides (the reduced node of a decision diagram).
ghost use Rattle.std.specs.Prelude.{◌≡◌, ◌<◌, not, ◌&&◌, if◌then◌else◌};
ghost use Rattle.records.specs.Changes.{Within, Grows};
ghost use Rattle.records.specs.Makings.{Beyond, MakeShape, Making};
ghost use Rattle.records.specs.Marks.{leads_plain, turns, kept};
ghost use Rattle.records.specs.Rules.{firm_mask, may_mark};
ghost use Rattle.diagram.specs.Views.{view, room};

use super::Table;
use super::marks::leads_plain;
use crate::codes::Codes;
use crate::handle::handle_with;
use algebra::Algebra;
use records::{Full, Record};

// The record that is kept for two sides, and whether it is kept under NOT.
#[derive(Clone, Copy)]
struct Kept {
    record: Record,
    turned: bool,
}

// The side that has the first firm value: patterns with the input's bit down come first.
fn lead_side<G: Algebra>(codes: &Codes<G>, low_reach: u16, low: u32, high: u32) -> u32
    ensures { result ≡ (if firm_mask G.ops low_reach then low else high) }
{
    if codes.some_firm(low_reach) {
        low
    } else {
        high
    }
}

// Whether a record with this reach is kept under NOT.
fn is_turned<G: Algebra>(codes: &Codes<G>, reach: u16, lead: u32) -> bool
    ensures { result ≡ (may_mark G.ops reach && not (leads_plain G.ops lead)) }
{
    codes.may_mark(reach) && !leads_plain(codes.algebra, lead)
}

impl Table {
    fn kept<G: Algebra>(&self, codes: &Codes<G>, input: u8, low: u32, high: u32) -> Kept
        requires low { Within (view self.now) low }
        requires high { Within (view self.now) high }
        ensures record { result.record ≡ kept G.ops (view self.now) input low high }
        ensures turned { result.turned ≡ turns G.ops (view self.now) low high }
    {
        let low_reach = self.reach_of(codes, low);
        let reach = low_reach | self.reach_of(codes, high);
        let lead = lead_side(codes, low_reach, low, high);
        let turned = is_turned(codes, reach, lead);
        let (low, high, reach) = if turned {
            (
                self.negate(codes, low),
                self.negate(codes, high),
                codes.turn_mask(reach),
            )
        } else {
            (low, high, reach)
        };
        let record = Record {
            low,
            high,
            reach,
            input,
        };
        Kept { record, turned }
    }

    // The handle that is `low` where the input's bit is down and `high` where it is up. At most one place is taken. Inlined,
    // as are `settle` and `apply`: for an input both sides are known, so that little is left of it.
    #[inline(always)]
    pub(crate) fn make<G: Algebra>(
        &mut self,
        codes: &Codes<G>,
        input: u8,
        low: u32,
        high: u32,
    ) -> Result<u32, Full>
        requires inside { input < (view self.old).inputs }
        requires low { Beyond (view self.old) input low }
        requires high { Beyond (view self.old) input high }
        ensures grows { Grows (view self.old) (view self.new) }
        ensures room { room self.new ≡ room self.old }
        ensures shape { MakeShape (view self.old) (view self.new) input result }
        ensures meaning { Making G.ops (room self.old) (view self.old) (view self.new) input low high result }
    {
        if low == high {
            return Ok(low);
        }
        let kept = self.kept(codes, input, low, high);
        let p = self.add(kept.record).ok_or(Full)?;
        Ok(handle_with(p, kept.turned))
    }
}
