// Printing what came out otherwise than it is to.
use comparison::Call;
use netlist::Line;
use std::fmt;

// The lines of a netlist: a row of number, kind and operands for each.
#[derive(Clone, Copy)]
pub(crate) struct PrintedLines<'a>(pub &'a [Line]);

impl<'a> fmt::Display for PrintedLines<'a> {
    fn fmt<W: fmt::Write>(&self, f: &mut fmt::Formatter<W>) -> fmt::Result {
        write!(f, "netlist:")?;
        for (number, line) in self.0.iter().enumerate() {
            let kind = line.kind;
            let first = line.first;
            let second = line.second;
            write!(f, "\n{number:>5} kind {kind} {first} {second}")?;
        }
        Ok(())
    }
}

// The calls of a list, a row for each.
#[derive(Clone, Copy)]
pub(crate) struct PrintedCalls<'a>(pub &'a [Call]);

impl<'a> fmt::Display for PrintedCalls<'a> {
    fn fmt<W: fmt::Write>(&self, f: &mut fmt::Formatter<W>) -> fmt::Result {
        write!(f, "calls:")?;
        for call in self.0 {
            write!(f, "\n{}", PrintedCall(*call))?;
        }
        Ok(())
    }
}

#[derive(Clone, Copy)]
struct PrintedCall(Call);

impl fmt::Display for PrintedCall {
    fn fmt<W: fmt::Write>(&self, f: &mut fmt::Formatter<W>) -> fmt::Result {
        match self.0 {
            Call::Input(input) => write!(f, "input {input}"),
            Call::Constant(code) => write!(f, "constant {code}"),
            Call::Turn(x) => write!(f, "turn {x}"),
            Call::Join(op, x, y) => write!(f, "join {op} {x} {y}"),
            Call::Check(x, y) => write!(f, "check {x} {y}"),
            Call::Lay(span) => write!(f, "lay {} lines from {}", span.count, span.from),
            Call::Compare(a, b) => write!(
                f,
                "compare {} lines from {} with {} from {}",
                a.count, a.from, b.count, b.from
            ),
        }
    }
}
