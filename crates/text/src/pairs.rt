ghost use Rattle.std.specs.Prelude.{◌≡◌, ◌+◌, ◌*◌, Decides};
ghost use Rattle.text.specs.Pairs.{size, Alike, ReadsPair};

use crate::fault::PairFault;
use crate::header::{Header, Pair};
use crate::reader::read_netlist;
use crate::row::ROW;
use netlist::Line;

// The bytes of a netlist's rows.
fn text_size(header: Header) -> usize
    ensures { result ≡ size header }
{
    ROW * (header.lines as usize + 1)
}

// Whether the HEAD rows agree. Not `==`: the netlists may differ in how many lines they have.
fn alike(one: Header, two: Header) -> bool
    ensures { Decides result (Alike one two) }
{
    one.inputs == two.inputs && one.values == two.values
}

// Reads two netlists in a row, which are all that the bytes hold, each into a list of its own.
pub fn read_pair(bytes: &[u8], first: &mut [Line], second: &mut [Line]) -> Result<Pair, PairFault>
    ensures { ReadsPair bytes.now first.old first.new second.old second.new result }
{
    let one = read_netlist(bytes, 0, first).map_err(PairFault::First)?;
    let from = text_size(one);
    let two = read_netlist(bytes, from, second).map_err(PairFault::Second)?;
    let end = from + text_size(two);
    if end < bytes.len() {
        return Err(PairFault::Trailing);
    }
    if !alike(one, two) {
        return Err(PairFault::Heads);
    }
    Ok(Pair {
        first: one,
        second: two,
    })
}
