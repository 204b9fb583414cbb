ghost use Rattle.std.specs.Prelude.{◌≡◌, ◌-◌, ◌^◌, ◌<◌, true, false, IfOk, Some, MatchOption};
ghost use Rattle.netlist.specs.Findings.{first};
ghost use Rattle.records.specs.Changes.{Within};
ghost use Rattle.records.specs.Faults.{find_refusal, refusal_of, unless_refused};
ghost use Rattle.records.specs.Marks.{reach_of};
ghost use Rattle.records.specs.Rules.{Sound, Lawful, Occurs};
ghost use Rattle.records.specs.Stores.{level, value, up};
ghost use Rattle.diagram.specs.Views.{view};

use super::under_mark;
use crate::codes::{Codes, is_up};
use crate::handle::Target;
use crate::table::Table;
use algebra::Algebra;
use records::TableFault;

impl Table {
    // The pattern on which only one input's bit is up.
    fn pattern_of(&self, input: u8) -> u64
        requires { input < (view self.now).inputs }
        ensures { result ≡ 2 ^ ((view self.now).inputs - 1 - input) }
    {
        1 << (self.inputs() - 1 - input)
    }

    // The first pattern on which a handle in use has a value that it reaches. Patterns with an input's bit down come
    // first, so the way down takes the 0 side where that reaches the value, and else the 1 side; a skipped input is 0.
    fn first_in_use<G: Algebra>(&self, codes: &Codes<G>, h: u32, wanted: u8) -> u64
        requires within { Within (view self.now) h }
        requires code { wanted < G.ops.count }
        ensures small { result < 2 ^ ((view self.now).inputs - level (view self.now) h) }
        ensures first { Sound G.ops (view self.now) → Lawful G.ops (view self.now) h → Occurs G.ops (view self.now) h wanted
            → first (view self.now).inputs (value G.ops (view self.now) h) wanted ≡ Some result }
    {
        let Target::Place { place, marked } = Target::of(h) else {
            return 0;
        };
        let record = self.record_at(place);
        let below = under_mark(codes.algebra, marked, wanted);
        if is_up(self.reach_of(codes, record.low), below) {
            return self.first_in_use(codes, record.low, below);
        }
        let rest = self.first_in_use(codes, record.high, below);
        self.pattern_of(record.input) + rest
    }

    // The first pattern on which a handle has the wanted value; none exactly if the value's bit of its reach is down.
    pub fn find<G: Algebra>(
        &self,
        algebra: &G,
        h: u32,
        wanted: u8,
    ) -> Result<Option<u64>, TableFault>
        ensures refusal { refusal_of result ≡ find_refusal G.ops (view self.now) h wanted }
        ensures shape { IfOk result (λ x. MatchOption x
            (up (reach_of G.ops (view self.now) h) wanted ≡ false)
            (λ p. (up (reach_of G.ops (view self.now) h) wanted ≡ true) × (p < 2 ^ (view self.now).inputs))) }
        ensures meaning { Sound G.ops (view self.now)
            → result ≡ unless_refused (find_refusal G.ops (view self.now) h wanted) (first (view self.now).inputs (value G.ops (view self.now) h) wanted) }
    {
        let codes = Codes::of(algebra);
        self.check_lawful(&codes, h)?;
        if wanted >= G::COUNT {
            return Err(TableFault::NoSuchCode);
        }
        if !is_up(self.reach_of(&codes, h), wanted) {
            return Ok(None);
        }
        Ok(Some(self.first_in_use(&codes, h, wanted)))
    }
}
