// What a handle of a table stands for. These calls leave the table as it is.
ghost use Rattle.std.specs.Prelude.{◌≡◌, ℕ, ◌<◌, IfOk, Decides, if◌then◌else◌};
ghost use Rattle.records.specs.Changes.{Within};
ghost use Rattle.records.specs.Faults.{value_refusal, reach_refusal, unless_refused};
ghost use Rattle.records.specs.Marks.{reach_of};
ghost use Rattle.records.specs.Rules.{Sound, Occurs, lawful};
ghost use Rattle.records.specs.Stores.{side, value, up};
ghost use Rattle.netlist.specs.Signals.{bit};
ghost use Rattle.diagram.specs.Views.{view};

use crate::codes::Codes;
use crate::handle::Target;
use crate::table::Table;
use algebra::Algebra;
use netlist::Pattern;
use records::{Record, TableFault};

mod find;
mod support;

// The NOT of a value where a place is marked.
fn under_mark<G: Algebra>(algebra: &G, marked: bool, code: u8) -> u8
    ensures { result ≡ (if marked then G.ops.turn code else code) }
{
    if marked { algebra.turn(code) } else { code }
}

// The side of a record that the bit of its input chooses.
fn side_on(r: Record, pattern: Pattern) -> u32
    requires { r.input < pattern.width }
    ensures { result ≡ side r (bit pattern.width pattern.number r.input) }
{
    if pattern.bit(r.input) == 1 {
        r.high
    } else {
        r.low
    }
}

impl Table {
    // Whether `h` is a constant of the algebra, or a place in use that is marked only where it may be.
    pub fn is_lawful<G: Algebra>(&self, algebra: &G, h: u32) -> bool
        ensures { result ≡ lawful G.ops (view self.now) h }
    {
        self.lawful(&Codes::of(algebra), h)
    }

    // Goes down by the pattern's bits to a constant, and turns it back up under each mark on the way.
    fn value_in_use<G: Algebra>(&self, algebra: &G, h: u32, pattern: Pattern) -> u8
        requires within { Within (view self.now) h }
        requires wide { pattern.width ≡ (view self.now).inputs }
        ensures { result ≡ value G.ops (view self.now) h pattern.number }
    {
        match Target::of(h) {
            Target::Constant(code) => code,
            Target::Place { place, marked } => {
                let side = side_on(self.record_at(place), pattern);
                let below = self.value_in_use(algebra, side, pattern);
                under_mark(algebra, marked, below)
            }
        }
    }

    // The value of a handle on a pattern.
    pub fn value<G: Algebra>(&self, algebra: &G, h: u32, pattern: Pattern) -> Result<u8, TableFault>
        ensures { result ≡ unless_refused (value_refusal G.ops (view self.now) h pattern.width) (value G.ops (view self.now) h pattern.number) }
    {
        self.check_lawful(&Codes::of(algebra), h)?;
        if pattern.width() != self.inputs() {
            return Err(TableFault::NoSuchPattern);
        }
        Ok(self.value_in_use(algebra, h, pattern))
    }

    // The mask of the values that a handle has: bit v is up if it has the value v on some pattern.
    pub fn reach<G: Algebra>(&self, algebra: &G, h: u32) -> Result<u16, TableFault>
        ensures mask { result ≡ unless_refused (reach_refusal G.ops (view self.now) h) (reach_of G.ops (view self.now) h) }
        ensures meaning { Sound G.ops (view self.now) → IfOk result (λ m. (v : ℕ) → Decides (up m v) (Occurs G.ops (view self.now) h v)) }
    {
        let codes = Codes::of(algebra);
        self.check_lawful(&codes, h)?;
        Ok(self.reach_of(&codes, h))
    }
}
