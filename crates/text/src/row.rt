ghost use Rattle.std.specs.Prelude.{◌≡◌, ◌<◌, ◌≤◌, MatchOption, MatchResult};
ghost use Rattle.text.specs.Rows.{row_at, Framed};
ghost use Rattle.text.specs.Faults.{FirstFailed};
ghost use Rattle.text.specs.Netlists.{Readable, line_row, LineTest, HeadRow, HeadTest, values_number};

use crate::fault::RowFault;
use crate::field::{read_kind, read_number, read_second};
use crate::header::{Header, Values};
use netlist::{Line, MOST_INPUTS};

// A row with its line feed.
pub(crate) const ROW: usize = 25;

// The row at a place, where it stands there whole, with its space and its line feed.
fn row_at(bytes: &[u8], at: usize) -> Option<&[u8]>
    ensures { MatchOption result (Framed (row_at bytes.now at) → ⊥) (λ s. (s.now ≡ row_at bytes.now at) × Framed s.now) }
{
    let row = bytes.get(at..)?.get(..ROW)?;
    (row[5] == b' ' && row[24] == b'\n').then_some(row)
}

// The HEAD row at a place.
pub(crate) fn read_head(bytes: &[u8], at: usize) -> Result<Header, RowFault>
    ensures { MatchResult result
        (λ h. HeadRow (row_at bytes.now at) h.lines h.inputs (values_number h.values) × (h.inputs ≤ 60))
        (FirstFailed (HeadTest (row_at bytes.now at))) }
{
    let row = row_at(bytes, at).ok_or(RowFault::Incomplete)?;
    if &row[6..12] != b"HEAD  ".as_slice() {
        return Err(RowFault::Word);
    }
    let lines = read_number::<5>(&row[..5]).ok_or(RowFault::Field)?;
    let inputs = read_number::<6>(&row[12..18]).ok_or(RowFault::Field)?;
    let number = read_number::<6>(&row[18..24]).ok_or(RowFault::Field)?;
    let values = Values::of(number).ok_or(RowFault::Limits)?;
    if inputs > u32::from(MOST_INPUTS) {
        return Err(RowFault::Limits);
    }
    Ok(Header {
        lines,
        inputs: inputs as u8,
        values,
    })
}

// The row of the line that is due, at a place.
pub(crate) fn read_line(bytes: &[u8], at: usize, due: u32) -> Result<Line, RowFault>
    requires { due < 100000 }
    ensures { MatchResult result
        (λ l. Readable l × (row_at bytes.now at ≡ line_row due l))
        (FirstFailed (LineTest due (row_at bytes.now at))) }
{
    let row = row_at(bytes, at).ok_or(RowFault::Incomplete)?;
    let kind = read_kind(&row[6..12]).ok_or(RowFault::Word)?;
    let number = read_number::<5>(&row[..5]).ok_or(RowFault::Field)?;
    let first = read_number::<6>(&row[12..18]).ok_or(RowFault::Field)?;
    let second = read_second(kind, &row[18..24]).ok_or(RowFault::Field)?;
    if number != due {
        return Err(RowFault::OutOfTurn);
    }
    Ok(Line {
        kind: u8::from(kind),
        first,
        second,
    })
}
