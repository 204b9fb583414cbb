ghost use Rattle.std.specs.Prelude.{◌≡◌};
ghost use Rattle.records.specs.Faults.{table_fault_number};
ghost use Rattle.records.specs.declared.fault.TableFault.TheVariants.{Full};

// Why a call on a table is refused, by its number in reports.
#[derive(Clone, Copy, PartialEq, Eq, Debug)]
pub enum TableFault {
    // over 60 inputs
    TooManyInputs = 21,
    // fewer work rows than inputs + 1
    FewRows = 22,
    // no lawful handle
    NoSuchHandle = 23,
    NoSuchInput = 24,
    NoSuchCode = 25,
    // no such operator, or one that the algebra lacks
    NoSuchOperator = 26,
    // a pattern of another width than the table's
    NoSuchPattern = 29,
    // all places are in use
    Full = 31,
}

// No place is left.
#[derive(Clone, Copy, PartialEq, Eq, Debug)]
pub struct Full;

impl TableFault {
    // The number of the refusal.
    pub fn number(self) -> u8
        ensures { result ≡ table_fault_number self }
    {
        self as u8
    }
}

impl From<Full> for TableFault {
    ghost from_gives = { λ _ f. f ≡ Full };

    fn from(_full: Full) -> TableFault {
        TableFault::Full
    }
}
