// Choosing calls: mostly with handles that were answered, at times with any others.
ghost use Rattle.std.specs.Prelude.{◌<◌, ◌≤◌};

use crate::audit::FIRST_PLACE;
use crate::making::{Maker, count_of};
use algebra::Op;
use comparison::{Call, Span};
use std::alloc::AllocError;

// The operators of netlists; GRADE is chosen apart.
const OPERATORS: [Op; 5] = [Op::And, Op::Or, Op::IfAnd, Op::IfOr, Op::Wire];

// Numbers up to this are tried as operators: all that there are, and some that are none.
const MOST_NUMBER: u8 = 11;

// What calls are chosen from: the handles that were answered, and a list of two netlists, the second from `middle` on.
#[derive(Drop)]
pub(crate) struct Chooser<'d, 'a> {
    pub maker: Maker<'d>,
    pub handles: &'a [u32],
    pub middle: u32,
    pub end: u32,
}

fn span(from: u32, count: u32) -> Span {
    Span {
        from: from as usize,
        count: count as usize,
    }
}

impl<'d, 'a> Chooser<'d, 'a> {
    fn below(&mut self, count: u32) -> u32
        ensures { 0 < count → result < count }
    {
        self.maker.dice.below(count)
    }

    fn up_to(&mut self, most: u8) -> u8
        ensures { result ≤ most }
    {
        self.below(u32::from(most) + 1) as u8
    }

    // A handle that was answered, or a constant where none was.
    fn answered(&mut self) -> u32 {
        let place = self.below(count_of(self.handles));
        self.handles.get(place as usize).copied().unwrap_or(place)
    }

    fn any_handle(&mut self) -> u32 {
        match self.below(40) {
            0 => self.below(20),
            1 => self.below(64) + FIRST_PLACE,
            2 => u32::MAX,
            3..=5 => self.answered() ^ 1,
            6..=11 => self.maker.any_code(),
            _ => self.answered(),
        }
    }

    // The number of an operator, and at times any number.
    fn any_operator(&mut self) -> u8 {
        match self.below(16) {
            0 => self.up_to(MOST_NUMBER),
            1 => u8::from(Op::Grade),
            _ => u8::from(OPERATORS[usize::from(self.up_to(4))]),
        }
    }

    fn any_span(&mut self) -> Span {
        match self.below(8) {
            0 => span(self.below(40), self.below(40)),
            1 => span(0, self.below(self.middle)),
            2..=4 => span(0, self.middle),
            5 => span(
                self.middle,
                self.below(self.end.saturating_sub(self.middle)),
            ),
            _ => span(self.middle, u32::MAX),
        }
    }

    fn any_compare(&mut self) -> Call {
        if self.maker.dice.one_in(3) {
            Call::Compare(self.any_span(), self.any_span())
        } else {
            Call::Compare(span(0, self.middle), span(self.middle, self.end))
        }
    }

    fn any_call(&mut self) -> Call {
        let frame = self.maker.frame;
        match self.below(20) {
            0..=3 => Call::Input(self.up_to(frame.inputs)),
            4 => Call::Constant(self.up_to(frame.values)),
            5 | 6 => Call::Turn(self.any_handle()),
            7..=13 => Call::Join(self.any_operator(), self.any_handle(), self.any_handle()),
            14..=16 => Call::Check(self.any_handle(), self.any_handle()),
            17 => Call::Lay(self.any_span()),
            _ => self.any_compare(),
        }
    }

    // Adds some calls to a list.
    pub(crate) fn add_calls(&mut self, calls: &mut Vec<Call>) -> Result<(), AllocError> {
        for _ in 0..=self.below(6) {
            calls.push(self.any_call())?;
        }
        Ok(())
    }
}
