ghost use Rattle.std.specs.Prelude.{◌≡◌, ◌≤◌, length};
ghost use Rattle.text.specs.Rows.{row_at};
ghost use Rattle.text.specs.Netlists.{HeadRow, values_number};
ghost use Rattle.text.specs.Readings.{Reading, Reads};

use crate::fault::ReadFault;
use crate::header::Header;
use crate::row::{ROW, read_head, read_line};
use netlist::Line;

// Reads the lines that a good HEAD row at a place counts, into a list of just so many, and answers what the row says.
fn read_lines(
    bytes: &[u8],
    from: usize,
    header: Header,
    lines: &mut [Line],
) -> Result<Header, ReadFault>
    requires head { HeadRow (row_at bytes.now from) header.lines header.inputs (values_number header.values) }
    requires few { header.inputs ≤ 60 }
    requires counted { length lines.old ≡ header.lines }
    ensures { Reading bytes.now from lines.old lines.new result }
{
    for (due, line) in lines.iter_mut().enumerate() {
        let at = from + ROW * (due + 1);
        let due = due as u32;
        *line = read_line(bytes, at, due).map_err(move |fault| ReadFault::AtLine(due, fault))?;
    }
    Ok(header)
}

// Reads the netlist whose text stands in the bytes from a place on. Its lines become the first entries of the list; those
// before a refused line stay there, and the other entries are as before.
pub fn read_netlist(bytes: &[u8], from: usize, lines: &mut [Line]) -> Result<Header, ReadFault>
    ensures { Reads bytes.now from lines.old lines.new result }
{
    let header = read_head(bytes, from)?;
    if header.lines as usize > lines.len() {
        return Err(ReadFault::TooManyLines);
    }
    read_lines(bytes, from, header, &mut lines[..header.lines as usize])
}
