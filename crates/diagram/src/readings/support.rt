ghost use Rattle.std.specs.Prelude.{◌≡◌, ℕ, ◌<◌, ◌≤◌, true, length, is_err, IfOk};
ghost use Rattle.records.specs.Changes.{Within};
ghost use Rattle.records.specs.Faults.{support_refusal, refusal_of, unless_refused};
ghost use Rattle.records.specs.Rules.{Sound};
ghost use Rattle.records.specs.Stores.{value, up};
ghost use Rattle.records.specs.Supports.{support_of, Covers, Collected, AllDone};
ghost use Rattle.diagram.specs.Views.{view};

use crate::codes::Codes;
use crate::handle::{Target, handle_of};
use crate::table::Table;
use algebra::Algebra;
use records::{Row, TableFault};

// Whether a mask has every input from one on.
fn has_rest(mask: u64, from: u8, inputs: u8) -> bool
    requires inside { from ≤ inputs }
    requires few { inputs ≤ 60 }
    ensures { result ≡ true → (i : ℕ) → from ≤ i → i < inputs → up mask i ≡ true }
{
    mask >> from == (1 << (inputs - from)) - 1
}

impl Table {
    // The row that may hold a place as done: its own where there are enough rows, and else the row of its input.
    fn row_of(&self, rows: usize, place: usize, input: u8) -> usize
        requires place { place < (view self.now).used }
        requires input { input < (view self.now).inputs }
        requires enough { (view self.now).inputs < rows }
        ensures { result < rows }
    {
        if rows < self.used() {
            input as usize
        } else {
            place
        }
    }

    // A mask with the inputs that matter to `h` besides: those that the records below it test. A row holds a place whose
    // inputs the mask has already. So no place is visited twice where there are as many rows as places in use; with
    // fewer, at least the place that was done last at each input is not.
    fn collect(&self, rows: &mut [Row], h: u32, mask: u64) -> u64
        requires within { Within (view self.now) h }
        requires enough { (view self.now).inputs < length rows.old }
        requires done { AllDone (view self.now) mask rows.old }
        ensures collected { Collected (view self.now) h mask result }
        ensures done { AllDone (view self.now) result rows.new }
    {
        let Target::Place { place, .. } = Target::of(h) else {
            return mask;
        };
        let record = self.record_at(place);
        let bare = handle_of(place);
        let row = self.row_of(rows.len(), place, record.input);
        if rows[row].low == bare {
            return mask;
        }
        if has_rest(mask, record.input, self.inputs()) {
            return mask;
        }
        let own = mask | 1 << record.input;
        let low = self.collect(rows, record.low, own);
        let both = self.collect(rows, record.high, low);
        rows[row].low = bare;
        both
    }

    // The mask of the inputs that matter to a handle: bit i is up if two patterns that differ only there have different
    // values.
    pub fn support<G: Algebra>(
        &self,
        algebra: &G,
        rows: &mut [Row],
        h: u32,
    ) -> Result<u64, TableFault>
        ensures refusal { refusal_of result ≡ support_refusal G.ops (view self.now) (length rows.old) h }
        ensures kept { is_err result ≡ true → rows.new ≡ rows.old }
        ensures covers { IfOk result (λ m. Covers (view self.now) m h) }
        ensures meaning { Sound G.ops (view self.now)
            → result ≡ unless_refused (support_refusal G.ops (view self.now) (length rows.old) h) (support_of (view self.now).inputs (value G.ops (view self.now) h)) }
    {
        self.check_rows(rows)?;
        self.check_lawful(&Codes::of(algebra), h)?;
        // no input matters to a constant, so that a blank row holds nothing as done
        rows.fill(Row::default());
        Ok(self.collect(rows, h, 0))
    }
}
