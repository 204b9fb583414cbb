// How two handles grade, from the handle of their GRADE.
ghost use Rattle.std.specs.Prelude.{◌≡◌, ◌^◌, ◌<◌, Some};
ghost use Rattle.netlist.specs.Findings.{finding, first};
ghost use Rattle.records.specs.Rules.{Lawful};
ghost use Rattle.records.specs.Stores.{value};
ghost use Rattle.diagram.specs.Views.{view};
ghost use Rattle.checking.specs.Gradings.{Graded, difference_of};

use algebra::Algebra;
use diagram::Table;
use netlist::{Difference, Finding, Pattern};

// The value of a lawful handle on a pattern of the table's width.
fn value_on<G: Algebra>(table: &Table, algebra: &G, h: u32, number: u64) -> Option<u8>
    ensures { Lawful G.ops (view table.now) h → number < 2 ^ (view table.now).inputs → result ≡ Some (value G.ops (view table.now) h number) }
{
    let pattern = Pattern::new(table.inputs(), number).ok()?;
    table.value(algebra, h, pattern).ok()
}

// Where two handles first have a grade, and both values there.
fn difference<G: Algebra>(
    table: &Table,
    algebra: &G,
    graded: u32,
    grade: u8,
    x: u32,
    y: u32,
) -> Option<Difference>
    ensures { Graded G.ops (view table.now) graded x y → grade < G.ops.count
        → result ≡ difference_of (value G.ops (view table.now) x) (value G.ops (view table.now) y) grade (first (view table.now).inputs (value G.ops (view table.now) graded) grade) }
{
    let pattern = table.find(algebra, graded, grade).ok()??;
    let left = value_on(table, algebra, x, pattern)?;
    let right = value_on(table, algebra, y, pattern)?;
    Some(Difference {
        grade,
        pattern,
        left,
        right,
    })
}

// The finding of two handles: the gravest grade that occurs, at its first pattern.
pub(crate) fn grade_pair<G: Algebra>(
    table: &Table,
    algebra: &G,
    graded: u32,
    x: u32,
    y: u32,
) -> Finding
    ensures { Graded G.ops (view table.now) graded x y
        → result ≡ finding G.ops (view table.now).inputs (value G.ops (view table.now) x) (value G.ops (view table.now) y) }
{
    algebra
        .grave_order()
        .iter()
        .find_map(|grade| difference(table, algebra, graded, *grade, x, y))
        .map_or(Finding::Clean, Finding::Differs)
}
