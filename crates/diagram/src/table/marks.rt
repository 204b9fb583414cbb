// NOT of a handle, and the values that a handle has.
ghost use Rattle.std.specs.Prelude.{◌≡◌, ◌<◌, ◌≤◌, false, MatchResult};
ghost use Rattle.records.specs.Changes.{Within};
ghost use Rattle.records.specs.Marks.{negate, reach_of, leads_plain};
ghost use Rattle.records.specs.Rules.{lawful, Lawful};
ghost use Rattle.diagram.specs.Views.{view};

use super::Table;
use crate::codes::Codes;
use crate::handle::Target;
use algebra::Algebra;
use records::TableFault;

// Whether the first firm value of a handle is plain.
pub(super) fn leads_plain<G: Algebra>(algebra: &G, h: u32) -> bool
    ensures { result ≡ leads_plain G.ops h }
{
    match Target::of(h) {
        Target::Constant(code) => algebra.is_plain(code),
        Target::Place { marked, .. } => !marked,
    }
}

impl Table {
    // NOT of a handle that reaches settled values alone.
    pub(crate) fn negate<G: Algebra>(&self, codes: &Codes<G>, h: u32) -> u32
        requires { Within (view self.now) h }
        ensures { result ≡ negate G.ops (view self.now) h }
    {
        match Target::of(h) {
            Target::Constant(code) => codes.algebra.turn(code) as u32,
            Target::Place { place, marked } => {
                let reach = self.record_at(place).reach;
                if !codes.may_mark(reach) {
                    h
                } else if marked {
                    h - 1
                } else {
                    h + 1
                }
            }
        }
    }

    // The values that a handle has, as a mask.
    pub(crate) fn reach_of<G: Algebra>(&self, codes: &Codes<G>, h: u32) -> u16
        requires { Within (view self.now) h }
        ensures { result ≡ reach_of G.ops (view self.now) h }
    {
        match Target::of(h) {
            Target::Constant(code) => 1 << code,
            Target::Place { place, marked } => {
                let reach = self.record_at(place).reach;
                if marked {
                    codes.turn_mask(reach)
                } else {
                    reach
                }
            }
        }
    }

    // Whether a handle is a code of the algebra or a place in use, marked only where it may be.
    pub(crate) fn lawful<G: Algebra>(&self, codes: &Codes<G>, h: u32) -> bool
        ensures { result ≡ lawful G.ops (view self.now) h }
    {
        match Target::of(h) {
            Target::Constant(code) => code < G::COUNT,
            Target::Place { place, marked } => {
                place < self.used() && (!marked || codes.may_mark(self.record_at(place).reach))
            }
        }
    }

    // Refuses a handle that is not lawful.
    pub(crate) fn check_lawful<G: Algebra>(
        &self,
        codes: &Codes<G>,
        h: u32,
    ) -> Result<(), TableFault>
        ensures { MatchResult result
            (λ _. Lawful G.ops (view self.now) h)
            (λ f. (f ≡ TableFault.NoSuchHandle) × (lawful G.ops (view self.now) h ≡ false)) }
    {
        if self.lawful(codes, h) {
            Ok(())
        } else {
            Err(TableFault::NoSuchHandle)
        }
    }
}
