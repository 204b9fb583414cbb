ghost use Rattle.std.specs.Prelude.{◌≡◌, ◌<◌, ◌≤◌, length, MatchResult};
ghost use Rattle.records.specs.Changes.{Within};
ghost use Rattle.records.specs.Rules.{Placed};
ghost use Rattle.records.specs.Steps.{Split};
ghost use Rattle.records.specs.Stores.{level};
ghost use Rattle.diagram.specs.Views.{view};

use super::{Sides, Table};
use crate::handle::Target;
use records::{Record, Row, TableFault};

impl Table {
    // Refuses fewer work rows than inputs + 1.
    pub fn check_rows(&self, rows: &[Row]) -> Result<(), TableFault>
        ensures { MatchResult result
            (λ _. (view self.now).inputs < length rows.now)
            (λ f. (f ≡ TableFault.FewRows) × (length rows.now ≤ (view self.now).inputs)) }
    {
        if (self.inputs as usize) < rows.len() {
            Ok(())
        } else {
            Err(TableFault::FewRows)
        }
    }

    pub(crate) fn record_at(&self, p: usize) -> Record
        requires { p < (view self.now).used }
        ensures read { result ≡ (view self.now).at p }
        ensures placed { Placed (view self.now) p result }
    {
        self.places.get(p)
    }

    // The input that a handle tests first, or the number of inputs at a constant.
    pub(crate) fn level(&self, h: u32) -> u8
        requires { Within (view self.now) h }
        ensures { result ≡ level (view self.now) h }
    {
        match Target::of(h) {
            Target::Constant(_) => self.inputs,
            Target::Place { place, .. } => self.record_at(place).input,
        }
    }

    // The sides of a handle at an input that it tests first or not at all (its cofactors, with marks not applied).
    pub(crate) fn sides(&self, h: u32, input: u8) -> Sides
        requires within { Within (view self.now) h }
        requires above { input ≤ level (view self.now) h }
        requires inside { input < (view self.now).inputs }
        ensures { Split (view self.now) h input result.low result.high }
    {
        let Target::Place { place, .. } = Target::of(h) else {
            return Sides { low: h, high: h };
        };
        let r = self.record_at(place);
        if r.input != input {
            return Sides { low: h, high: h };
        }
        Sides {
            low: r.low,
            high: r.high,
        }
    }
}
