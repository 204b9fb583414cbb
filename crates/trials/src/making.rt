// Making netlists, and second ones that are nearly or wholly the same.
use crate::dice::Dice;
use algebra::Algebra;
use netlist::{Kind, Line};
use std::alloc::{AllocError, Global};

// The code of Z.
const FLOATING: u32 = 3;

// A number that no kind of line has.
const NO_KIND: u8 = 9;

// What lines are made for.
#[derive(Clone, Copy)]
pub(crate) struct Frame {
    pub inputs: u8,
    pub values: u8,
    pub wired: bool,
}

impl Frame {
    // What netlists of an algebra are made for.
    pub(crate) fn of<G: Algebra>(algebra: &G, inputs: u8) -> Frame {
        Frame {
            inputs,
            values: G::COUNT,
            wired: algebra.has_wire(),
        }
    }
}

// Makes netlists as the dice fall.
#[derive(Drop)]
pub(crate) struct Maker<'d> {
    pub dice: &'d mut Dice,
    pub heap: Global,
    pub frame: Frame,
}

// The length of a list, as lines count.
pub(crate) fn count_of<T>(list: &[T]) -> u32 {
    u32::try_from(list.len()).unwrap_or(u32::MAX)
}

// A line of a kind. Each program that makes lines has this for itself: in a library it would need a contract.
fn line(kind: Kind, first: u32, second: u32) -> Line {
    Line {
        kind: u8::from(kind),
        first,
        second,
    }
}

// The NOT of a line.
fn not(first: u32) -> Line {
    line(Kind::Not, first, 0)
}

// The kind that takes the place of an AND or an OR between NOTs.
fn between_nots(line: Line) -> Option<Kind> {
    match Kind::try_from(line.kind).ok()? {
        Kind::And => Some(Kind::Or),
        Kind::Or => Some(Kind::And),
        _ => None,
    }
}

// Where a line of the first netlist stands in the second one. Operands name earlier lines, so that each has its place.
fn moved(places: &[u32], number: u32) -> u32 {
    places.get(number as usize).copied().unwrap_or(0)
}

impl<'d> Maker<'d> {
    fn any_kind(&mut self) -> Kind {
        match self.dice.below(20) {
            0..=3 => Kind::Input,
            4..=6 => Kind::Const,
            7..=9 => Kind::Not,
            10 => Kind::And,
            11 => Kind::Or,
            12..=14 => Kind::IfAnd,
            15 | 16 => Kind::IfOr,
            17 | 18 if self.frame.wired => Kind::Wire,
            _ => Kind::Out,
        }
    }

    // The code of a value; of those of five values half the time that of Z.
    pub(crate) fn any_code(&mut self) -> u32 {
        if self.frame.wired && self.dice.one_in(2) {
            FLOATING
        } else {
            self.dice.below(u32::from(self.frame.values))
        }
    }

    // The number of an earlier line, more often a late one.
    fn earlier(&mut self, number: u32) -> u32 {
        let one = self.dice.below(number);
        if self.dice.one_in(2) {
            one
        } else {
            one.max(self.dice.below(number))
        }
    }

    // A line that may stand at this number.
    fn any_line(&mut self, number: u32) -> Line {
        let inputs = u32::from(self.frame.inputs);
        match self.any_kind() {
            Kind::Input if inputs > 0 => line(Kind::Input, self.dice.below(inputs), 0),
            Kind::Input | Kind::Const => line(Kind::Const, self.any_code(), 0),
            _ if number == 0 => line(Kind::Const, self.any_code(), 0),
            kind => line(kind, self.earlier(number), self.earlier(number)),
        }
    }

    // A netlist of so many lines. Most begin with their inputs, and all that have two lines end with an OUT line.
    fn any_netlist(&mut self, lines: u32) -> Result<Vec<Line>, AllocError> {
        let ordered = !self.dice.one_in(4);
        let inputs = if ordered {
            u32::from(self.frame.inputs)
        } else {
            0
        };
        let last = lines.saturating_sub(1);
        let heap = self.heap;
        (0..lines)
            .map(|number| {
                if number < inputs {
                    line(Kind::Input, number, 0)
                } else if number > 0 && number == last {
                    line(Kind::Out, self.earlier(number), 0)
                } else {
                    self.any_line(number)
                }
            })
            .collect(heap)
    }

    // The number of a line of a netlist.
    fn any_place(&mut self, lines: &[Line]) -> u32 {
        self.dice.below(count_of(lines))
    }

    // A netlist with one of its lines changed.
    fn changed(&mut self, lines: &[Line]) -> Result<Vec<Line>, AllocError> {
        let mut netlist = lines.to_vec(self.heap)?;
        let place = self.any_place(lines);
        if let Some(line) = netlist.get_mut(place as usize) {
            *line = self.any_line(place);
        }
        Ok(netlist)
    }

    // A line with its operands moved, at times with them exchanged where their order does not matter.
    fn moved_line(&mut self, places: &[u32], line: Line) -> Line {
        match Kind::try_from(line.kind) {
            Ok(Kind::Input | Kind::Const) => line,
            Ok(Kind::And | Kind::Or | Kind::Wire) if self.dice.one_in(2) => Line {
                first: moved(places, line.second),
                second: moved(places, line.first),
                ..line
            },
            _ => Line {
                first: moved(places, line.first),
                second: moved(places, line.second),
                ..line
            },
        }
    }

    // A netlist that says the same in other lines: operands are exchanged, and an AND or an OR is at times the other one
    // between NOTs.
    fn rewritten(&mut self, lines: &[Line]) -> Result<Vec<Line>, AllocError> {
        let mut netlist = Vec::new(self.heap);
        let mut places = Vec::new(self.heap);
        for own in lines {
            let same = self.moved_line(&places, *own);
            match between_nots(*own) {
                Some(kind) if self.dice.one_in(2) => {
                    let next = count_of(&netlist);
                    netlist.push(not(same.first))?;
                    netlist.push(not(same.second))?;
                    netlist.push(line(kind, next, next.saturating_add(1)))?;
                    netlist.push(not(next.saturating_add(2)))?;
                }
                _ => netlist.push(same)?,
            }
            places.push(count_of(&netlist).saturating_sub(1))?;
        }
        Ok(netlist)
    }

    // A second netlist: the first one with a line changed, the first one in other lines, or another one.
    fn any_second(&mut self, first: &[Line]) -> Result<Vec<Line>, AllocError> {
        match self.dice.below(12) {
            0..=6 => self.changed(first),
            7..=10 => self.rewritten(first),
            _ => self.any_netlist(8),
        }
    }

    // Two netlists, the first of up to so many lines.
    pub(crate) fn any_two(&mut self, most: u32) -> Result<(Vec<Line>, Vec<Line>), AllocError> {
        let lines = self.dice.below(most).saturating_add(1);
        let first = self.any_netlist(lines)?;
        let second = self.any_second(&first)?;
        Ok((first, second))
    }

    // A line that is refused at any number.
    fn refused_line(&mut self, number: u32) -> Line {
        match self.dice.below(5) {
            0 => line(Kind::Input, u32::from(self.frame.inputs), 0),
            1 => line(Kind::Const, u32::from(self.frame.values), 0),
            2 => line(Kind::Not, number, 0),
            3 => line(Kind::IfOr, 0, number),
            _ if self.frame.wired => Line {
                kind: NO_KIND,
                ..Line::default()
            },
            _ => line(Kind::Wire, 0, 0),
        }
    }

    // Puts a line that is refused in the place of another one, in one netlist of so many.
    pub(crate) fn spoil_one_in(&mut self, count: u32, lines: &mut [Line]) {
        if !self.dice.one_in(count) {
            return;
        }
        let place = self.any_place(lines);
        if let Some(line) = lines.get_mut(place as usize) {
            *line = self.refused_line(place);
        }
    }
}
