ghost use Rattle.std.specs.Prelude.{◌≡◌};
ghost use Rattle.text.specs.declared.fault.ReadFault.TheVariants.{Head};
ghost use Rattle.text.specs.Faults.{row_fault_number, read_fault_number, read_fault_line, pair_fault_number, pair_fault_netlist, pair_fault_line};

// Why a row is refused, with the numbers of the refusals. Its tests are made in this order; a HEAD row has no turn, and a
// line no limits.
#[derive(Clone, Copy, PartialEq, Eq, Debug)]
pub enum RowFault {
    // The row is missing or cut short, or lacks its line feed or the space of column 6.
    Incomplete = 11,
    // The word is no kind's name, or not HEAD where HEAD is due.
    Word = 13,
    // A number or an unused operand is malformed.
    Field = 12,
    // The line has not the number that is due.
    OutOfTurn = 14,
    // HEAD has over 60 inputs, or neither two nor five values.
    Limits = 15,
}

impl RowFault {
    // The number of the refusal.
    pub fn number(self) -> u8
        ensures { result ≡ row_fault_number self }
    {
        self as u8
    }
}

// Why a netlist is refused.
#[derive(Clone, Copy, PartialEq, Eq, Debug)]
pub enum ReadFault {
    // Its HEAD row.
    Head(RowFault),
    // It has more lines than the list that is lent for them.
    TooManyLines,
    // The row of the line that is due, with its number, a u32 as rows show it.
    AtLine(u32, RowFault),
}

impl ReadFault {
    // The number of the refusal; no cast gives it, since a row's fault has its own.
    pub fn number(self) -> u8
        ensures { result ≡ read_fault_number self }
    {
        match self {
            ReadFault::Head(fault) | ReadFault::AtLine(_, fault) => fault.number(),
            ReadFault::TooManyLines => 17,
        }
    }

    // The due number of the line whose row is refused.
    pub fn line(self) -> Option<u32>
        ensures { result ≡ read_fault_line self }
    {
        match self {
            ReadFault::Head(_) | ReadFault::TooManyLines => None,
            ReadFault::AtLine(due, _) => Some(due),
        }
    }
}

// A row's fault that comes with no line is the HEAD row's.
impl From<RowFault> for ReadFault {
    ghost from_gives = { λ e r. r ≡ Head e };

    fn from(fault: RowFault) -> ReadFault {
        ReadFault::Head(fault)
    }
}

// Why two netlists in a row are refused.
#[derive(Clone, Copy, PartialEq, Eq, Debug)]
pub enum PairFault {
    First(ReadFault),
    Second(ReadFault),
    // Bytes follow the second netlist.
    Trailing,
    // The two HEAD rows differ in inputs or values.
    Heads,
}

impl PairFault {
    // The number of the refusal; no cast gives it, since a netlist's fault has its own.
    pub fn number(self) -> u8
        ensures { result ≡ pair_fault_number self }
    {
        match self {
            PairFault::First(fault) | PairFault::Second(fault) => fault.number(),
            PairFault::Trailing => 16,
            PairFault::Heads => 41,
        }
    }

    // The netlist that is refused, 1 or 2, or 0 for neither: so the row of a refusal shows it.
    pub fn netlist(self) -> u8
        ensures { result ≡ pair_fault_netlist self }
    {
        match self {
            PairFault::First(_) => 1,
            PairFault::Second(_) => 2,
            PairFault::Trailing | PairFault::Heads => 0,
        }
    }

    // The due number of the line whose row is refused.
    pub fn line(self) -> Option<u32>
        ensures { result ≡ pair_fault_line self }
    {
        match self {
            PairFault::First(fault) | PairFault::Second(fault) => fault.line(),
            PairFault::Trailing | PairFault::Heads => None,
        }
    }
}
