// Signals as lists of values: one for each pattern, in the order of the patterns.
use algebra::{Algebra, Op};
use evaluation::evaluate;
use netlist::{Difference, Finding, Line, Pattern, check_lines};
use std::alloc::{AllocError, Global};

pub(crate) type Signal = Vec<u8>;

// All patterns of so many inputs.
pub(crate) fn patterns(heap: Global, inputs: u8) -> Result<Vec<Pattern>, AllocError> {
    (0..u64::MAX)
        .map_while(|number| Pattern::new(inputs, number).ok())
        .collect(heap)
}

// The lines before the first that is refused.
fn accepted<'a, G: Algebra>(algebra: &G, inputs: u8, lines: &'a [Line]) -> &'a [Line] {
    match check_lines(algebra, inputs, lines) {
        Ok(()) => lines,
        Err(fault) => lines.get(..fault.line).unwrap_or(lines),
    }
}

// The signals of a netlist's lines, up to the first that is refused: by the evaluator, pattern by pattern.
pub(crate) fn signals_of<G: Algebra>(
    heap: Global,
    algebra: &G,
    inputs: u8,
    patterns: &[Pattern],
    lines: &[Line],
) -> Result<Vec<Signal>, AllocError> {
    let lines = accepted(algebra, inputs, lines);
    let mut signals = Vec::new(heap);
    for _ in lines {
        signals.push(Vec::with_capacity(heap, patterns.len())?)?;
    }
    let mut values = vec![in heap; 0u8; lines.len()]?;
    for pattern in patterns {
        // lines that are accepted are not refused here
        let _ = evaluate(algebra, lines, *pattern, &mut values);
        for (signal, value) in signals.iter_mut().zip(values.iter()) {
            signal.push(*value)?;
        }
    }
    Ok(signals)
}

// The NOT of a signal.
pub(crate) fn turned<G: Algebra>(
    heap: Global,
    algebra: &G,
    signal: &[u8],
) -> Result<Signal, AllocError> {
    signal
        .iter()
        .map(|value| algebra.turn(*value))
        .collect(heap)
}

// An operator of two signals.
pub(crate) fn joined<G: Algebra>(
    heap: Global,
    algebra: &G,
    op: Op,
    left: &[u8],
    right: &[u8],
) -> Result<Signal, AllocError> {
    let both = left.iter().zip(right.iter());
    both.map(|(x, y)| algebra.operate(op, *x, *y)).collect(heap)
}

// The first pattern on which two signals have a grade, with both values there.
fn first_of(grade: u8, grades: &[u8], left: &[u8], right: &[u8]) -> Option<Difference> {
    let pattern = grades.iter().position(|own| *own == grade)?;
    Some(Difference {
        grade,
        pattern: pattern as u64,
        left: *left.get(pattern)?,
        right: *right.get(pattern)?,
    })
}

// The finding of two signals: the gravest of their grades, and the first pattern that has it. Like checking's own, on
// purpose: from the values alone, so that no table has a part in it.
pub(crate) fn finding<G: Algebra>(
    algebra: &G,
    grades: &[u8],
    left: &[u8],
    right: &[u8],
) -> Finding {
    algebra
        .grave_order()
        .iter()
        .find_map(|grade| first_of(*grade, grades, left, right))
        .map_or(Finding::Clean, Finding::Differs)
}
