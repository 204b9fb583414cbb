ghost use Rattle.records.specs.Rules.{Well};
ghost use Rattle.records.specs.Stores.{store};
ghost use Rattle.diagram.specs.Uses.{in_use};

use crate::places::Places;

mod changes;
mod counts;
mod making;
mod marks;
mod reads;
mod splits;

// A table of records over some number of inputs. Its shape needs no algebra: sides differ and lie deeper and before
// their record, and no key stands twice. Contracts see a table through `view` and `room` of specs/Views.antt, and no
// `Model`: a store gives its records as a function of the place, which a model's value cannot hold.
#[derive(Drop)]
pub struct Table {
    inputs: u8,
    places: Places,
    ghost well: { ∥ Well (store inputs (in_use places)) ∥₁ },
}

// The two sides of a handle at an input.
#[derive(Clone, Copy)]
pub(crate) struct Sides {
    pub low: u32,
    pub high: u32,
}
