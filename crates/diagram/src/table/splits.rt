// Splitting handles at an input (their cofactors).
ghost use Rattle.std.specs.Prelude.{◌≡◌, ◌<◌, ◌≤◌, min, MatchBool};
ghost use Rattle.records.specs.Changes.{Within};
ghost use Rattle.records.specs.Makings.{From};
ghost use Rattle.records.specs.Stores.{level};
ghost use Rattle.diagram.specs.Views.{view};
ghost use Rattle.records.specs.Walks.{Cut, cofactor_at};

use super::{Sides, Table};
use crate::codes::Codes;
use crate::handle::Target;
use algebra::Algebra;
use records::Row;

impl Table {
    // Whether a handle is in use, and tests no input before the one given.
    pub(crate) fn is_from(&self, h: u32, input: u8) -> bool
        ensures { MatchBool result (From (view self.now) input h) (Unit {0}) }
    {
        match Target::of(h) {
            Target::Constant(_) => input <= self.inputs,
            Target::Place { place, .. } => {
                place < self.used() && input <= self.record_at(place).input
            }
        }
    }

    // What is left of a handle at an input that it tests first or not at all; under a mark the sides are turned.
    fn cofactors<G: Algebra>(&self, codes: &Codes<G>, h: u32, input: u8) -> Sides
        requires within { Within (view self.now) h }
        requires above { input ≤ level (view self.now) h }
        requires inside { input < (view self.now).inputs }
        ensures low { result.low ≡ cofactor_at G.ops (view self.now) h input 0 }
        ensures high { result.high ≡ cofactor_at G.ops (view self.now) h input 1 }
    {
        let sides = self.sides(h, input);
        match Target::of(h) {
            Target::Place { place, marked } if marked && self.record_at(place).input == input => {
                Sides {
                    low: self.negate(codes, sides.low),
                    high: self.negate(codes, sides.high),
                }
            }
            _ => sides,
        }
    }

    // Two handles, not both constants, split at the input that either tests first.
    pub(crate) fn cut<G: Algebra>(&self, codes: &Codes<G>, x: u32, y: u32, input: u8) -> Row
        requires x { Within (view self.now) x }
        requires y { Within (view self.now) y }
        requires places { x < 16 → y < 16 → ⊥ }
        requires input { input ≡ min (level (view self.now) x) (level (view self.now) y) }
        ensures { Cut G.ops (view self.now) x y result }
    {
        let first = self.cofactors(codes, x, input);
        let second = self.cofactors(codes, y, input);
        Row {
            input,
            low: first.low,
            high: first.high,
            low_other: second.low,
            high_other: second.high,
        }
    }
}
