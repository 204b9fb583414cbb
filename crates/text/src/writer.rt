// The bytes and the place in them stay two parameters: of a struct of both, each contract would say besides that it still
// holds the reference that the caller lent.
ghost use Rattle.std.specs.Prelude.{◌≡◌, ◌+◌, ◌<◌, ◌≤◌, map, length, Decides, MatchOption};
ghost use Rattle.netlist.specs.Signals.{bit};
ghost use Rattle.text.specs.Reports.{summary_word, summary_row, bits, difference, finding_row, findings_text, finding_size, findings_size, fault_row, Written, Unwritten};

use crate::field::{columns, operand_bytes};
use crate::row::ROW;
use algebra::Algebra;
use netlist::{Difference, Finding, HasFinding};

// The first row of a report with its line feed.
const SUMMARY: usize = 19;

// The word in the first row of a report: what its second number counts.
#[derive(Clone, Copy, PartialEq, Eq, Debug)]
pub enum Summary {
    // The patterns that were tried.
    Tried,
    // The places in use.
    Report,
}

impl Summary {
    fn word(self) -> [u8; 6]
        ensures { result ≡ summary_word self }
    {
        match self {
            Summary::Tried => *b"TRIED ",
            Summary::Report => *b"REPORT",
        }
    }
}

// Whether bytes of a length have room for a text of a size from a place on.
fn has_room(len: usize, at: usize, size: usize) -> bool
    ensures { Decides result (at + size ≤ len) }
{
    size <= len && at <= len - size
}

// Writes a text that fits, and answers its end.
fn put(out: &mut [u8], at: usize, text: &[u8]) -> usize
    requires { at + length text.now ≤ length out.old }
    ensures { Written text.now at out.old out.new result }
{
    let end = at + text.len();
    out[at..end].copy_from_slice(text);
    end
}

// The first row of a report, "    1 TRIED      4" and its line feed.
pub fn write_summary(
    out: &mut [u8],
    at: usize,
    pairs: u32,
    word: Summary,
    number: u32,
) -> Option<usize>
    ensures { MatchOption result
        (Unwritten (summary_row pairs word number) at out.old out.new)
        (Written (summary_row pairs word number) at out.old out.new) }
{
    if !has_room(out.len(), at, SUMMARY) {
        return None;
    }
    let spaced = put(out, at, &columns::<5>(u64::from(pairs)));
    let worded = put(out, spaced, b" ");
    let counted = put(out, worded, &word.word());
    let ended = put(out, counted, &operand_bytes(Some(number)));
    Some(put(out, ended, b"\n"))
}

// The row of a refusal, "   28 FAULT      1     7" and its line feed. It takes the numbers that stand in the row, since
// faults of several crates, each of a type of its own, are written.
pub fn write_fault(
    out: &mut [u8],
    at: usize,
    number: u8,
    netlist: u8,
    line: Option<u32>,
) -> Option<usize>
    ensures { MatchOption result
        (Unwritten (fault_row number netlist line) at out.old out.new)
        (Written (fault_row number netlist line) at out.old out.new) }
{
    if !has_room(out.len(), at, ROW) {
        return None;
    }
    let spaced = put(out, at, &columns::<5>(u64::from(number)));
    let worded = put(out, spaced, b" FAULT ");
    let first = put(out, worded, &operand_bytes(Some(u32::from(netlist))));
    let ended = put(out, first, &operand_bytes(line));
    Some(put(out, ended, b"\n"))
}

// The character of an input's bit in a pattern of a width. A `Pattern` is below 2 ^ width; here any number is written.
fn bit_digit(width: u8, pattern: u64, input: u8) -> u8
    requires { input < width }
    ensures { result ≡ 48 + bit width pattern input }
{
    let shift = width - 1 - input;
    // A pattern has 64 bits: those above them are 0.
    let bit = pattern.checked_shr(u32::from(shift)).unwrap_or(0) % 2;
    b'0' + bit as u8
}

// Writes the bits of a pattern, input 0 first.
fn fill_bits(digits: &mut [u8], width: u8, pattern: u64)
    requires { length digits.old ≡ width }
    ensures { digits.new ≡ bits width pattern }
{
    for (input, digit) in digits.iter_mut().enumerate() {
        *digit = bit_digit(width, pattern, input as u8);
    }
}

// Writes the bits of a pattern at a place, input 0 first, and answers their end.
fn put_bits(out: &mut [u8], at: usize, width: u8, pattern: u64) -> usize
    requires { at + width ≤ length out.old }
    ensures { Written (bits width pattern) at out.old out.new result }
{
    let end = at + usize::from(width);
    fill_bits(&mut out[at..end], width, pattern);
    end
}

// The bytes of a finding's row: the number's five columns, a blank, a letter and the line feed, or for a pair that differs
// three letters, each after a blank, a blank and the bits.
fn size_of_row(width: u8, finding: Finding) -> usize
    ensures { result ≡ finding_size width finding }
{
    match finding {
        Finding::Clean => 8,
        Finding::Differs(_) => 13 + usize::from(width),
    }
}

// Whether the rows of the findings fit so many bytes.
fn rows_fit<F: HasFinding>(room: usize, width: u8, findings: &[F]) -> bool
    ensures { Decides result (findings_size width (map F.of findings.now) ≤ room) }
{
    // The rest of the room is kept by hand: what `try_fold` over the rows answers did not prove.
    let mut left = room;
    for row in findings {
        let Some(rest) = left.checked_sub(size_of_row(width, row.finding())) else {
            return false;
        };
        left = rest;
    }
    true
}

// Writes the rest of the row of a pair that is not clean, and answers its end.
fn put_difference<G: Algebra>(
    algebra: &G,
    out: &mut [u8],
    at: usize,
    width: u8,
    d: Difference,
) -> usize
    requires { at + (8 + width) ≤ length out.old }
    ensures { Written (difference G.Algebra.ops.letter width d) at out.old out.new result }
{
    let grade = algebra.letter(d.grade);
    let left = algebra.letter(d.left);
    let right = algebra.letter(d.right);
    let lettered = put(out, at, &[b' ', grade, b' ', left, b' ', right, b' ']);
    let ended = put_bits(out, lettered, width, d.pattern);
    put(out, ended, b"\n")
}

// Writes the row of the pair of a number, which fits, and answers its end.
fn put_finding<G: Algebra>(
    algebra: &G,
    out: &mut [u8],
    at: usize,
    width: u8,
    number: usize,
    finding: Finding,
) -> usize
    requires { at + finding_size width finding ≤ length out.old }
    ensures { Written (finding_row G.Algebra.ops.letter width number finding) at out.old out.new result }
{
    let spaced = put(out, at, &columns::<5>(number as u64));
    match finding {
        Finding::Clean => put(out, spaced, &[b' ', algebra.letter(0), b'\n']),
        Finding::Differs(d) => put_difference(algebra, out, spaced, width, d),
    }
}

// A row for each finding, numbered from 0: "    0 0" of a clean pair, else "    0 1 Z 0 00", and a line feed. The grade's
// and the values' letters are the algebra's, and the pattern has `width` bits.
pub fn write_findings<G: Algebra, F: HasFinding>(
    algebra: &G,
    out: &mut [u8],
    at: usize,
    width: u8,
    findings: &[F],
) -> Option<usize>
    ensures { MatchOption result
        (Unwritten (findings_text G.Algebra.ops.letter width 0 (map F.of findings.now)) at out.old out.new)
        (Written (findings_text G.Algebra.ops.letter width 0 (map F.of findings.now)) at out.old out.new) }
{
    let room = out.len().checked_sub(at)?;
    if !rows_fit(room, width, findings) {
        return None;
    }
    // The end is kept by hand: of a fold whose closure writes the bytes, a proof knows nothing about them.
    let mut end = at;
    for (number, row) in findings.iter().enumerate() {
        end = put_finding(algebra, out, end, width, number, row.finding());
    }
    Some(end)
}
