ghost use Rattle.std.specs.Prelude.{◌≡◌, ◌≢◌, MatchOption};
ghost use Rattle.text.specs.declared.header.Values.{Values};
ghost use Rattle.text.specs.Netlists.{values_number};

// How many values a netlist computes with, as its HEAD row says.
#[derive(Clone, Copy, PartialEq, Eq, Debug)]
pub enum Values {
    Two = 2,
    Five = 5,
}

impl Values {
    // The values of a number, if a netlist may have so many.
    pub(crate) fn of(number: u32) -> Option<Values>
        ensures { MatchOption result ((v : Values) → number ≢ values_number v) (λ v. number ≡ values_number v) }
    {
        match number {
            2 => Some(Values::Two),
            5 => Some(Values::Five),
            _ => None,
        }
    }
}

impl From<Values> for u8 {
    ghost from_gives = { λ values n. n ≡ values_number values };

    fn from(values: Values) -> u8 {
        values as u8
    }
}

// What the HEAD row of a netlist says: how many lines follow, how many inputs there are, and the values.
#[derive(Clone, Copy, PartialEq, Eq, Debug)]
pub struct Header {
    pub lines: u32,
    pub inputs: u8,
    pub values: Values,
}

// What the HEAD rows of two netlists in a row say.
#[derive(Clone, Copy, PartialEq, Eq, Debug)]
pub struct Pair {
    pub first: Header,
    pub second: Header,
}
