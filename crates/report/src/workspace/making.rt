ghost use Rattle.std.specs.Prelude.{◌≡◌, ◌^◌, min, IfOk};
ghost use Rattle.report.specs.Limits.{lines_of, places_of, memo_rows_of};

use super::{Limits, Workspace};
use comparison::Checked;
use diagram::{Row, RowMemo, Table};
use netlist::{Line, MOST_INPUTS};
use std::alloc::{AllocError, Global};

// The most lines that a HEAD row can count.
const MOST_LINES: usize = 99_999;

// One more than the most inputs of a table.
const ROWS: usize = MOST_INPUTS as usize + 1;

impl Workspace {
    // A workspace of some limits. All its memory is asked for here.
    pub fn new(heap: Global, limits: Limits) -> Result<Workspace, AllocError>
        ensures { IfOk result (λ w. (lines_of w ≡ min limits.lines 99999) × (places_of w ≡ min limits.places 1048576) × (memo_rows_of w ≡ 2 ^ min limits.memo_bits 22)) }
    {
        let lines = limits.lines.min(MOST_LINES);
        let table = Table::new(heap, limits.places)?;
        let memo = RowMemo::new(heap, limits.memo_bits)?;
        let rows = vec![in heap; Row::default(); ROWS]?;
        let first = vec![in heap; Line::default(); lines]?;
        let second = vec![in heap; Line::default(); lines]?;
        let handles = vec![in heap; 0u32; lines + lines]?;
        let found = vec![in heap; Checked::default(); lines]?;
        Ok(Workspace {
            table,
            memo,
            rows,
            first,
            second,
            handles,
            found,
        })
    }

    // A workspace for netlists of at most 512 lines, with a table of 1,024 places and a memo of 256 rows. This one and the
    // next are calls and not constants, so that a contract says their sizes.
    pub fn standard(heap: Global) -> Result<Workspace, AllocError>
        ensures { IfOk result (λ w. (lines_of w ≡ 512) × (places_of w ≡ 1024) × (memo_rows_of w ≡ 256)) }
    {
        let limits = Limits {
            lines: 512,
            places: 1_024,
            memo_bits: 8,
        };
        Workspace::new(heap, limits)
    }

    // A workspace for netlists of as many lines as a HEAD row can count, with a table of 1,048,576 places and a memo of
    // 1,048,576 rows.
    pub fn wide(heap: Global) -> Result<Workspace, AllocError>
        ensures { IfOk result (λ w. (lines_of w ≡ 99999) × (places_of w ≡ 1048576) × (memo_rows_of w ≡ 1048576)) }
    {
        let limits = Limits {
            lines: MOST_LINES,
            places: 1_048_576,
            memo_bits: 20,
        };
        Workspace::new(heap, limits)
    }
}
