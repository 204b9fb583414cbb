ghost use Rattle.std.specs.Prelude.{◌≡◌};
ghost use Rattle.netlist.specs.Kinds.{kind_number, KindOf};

// What a line can be, with the numbers that netlists give the kinds.
#[derive(Clone, Copy, PartialEq, Eq, Debug)]
pub enum Kind {
    Input = 0,
    Const = 1,
    Not = 2,
    And = 3,
    Or = 4,
    IfAnd = 5,
    IfOr = 6,
    Wire = 7,
    Out = 8,
}

// A number that no kind of line has.
#[derive(Clone, Copy, PartialEq, Eq, Debug)]
pub struct UnknownKind(pub u8);

impl From<Kind> for u8 {
    ghost from_gives = { λ kind n. n ≡ kind_number kind };

    fn from(kind: Kind) -> u8 {
        kind as u8
    }
}

impl TryFrom<u8> for Kind {
    type Error = UnknownKind;

    ghost try_from_gives = { KindOf };

    fn try_from(number: u8) -> Result<Kind, UnknownKind> {
        match number {
            0 => Ok(Kind::Input),
            1 => Ok(Kind::Const),
            2 => Ok(Kind::Not),
            3 => Ok(Kind::And),
            4 => Ok(Kind::Or),
            5 => Ok(Kind::IfAnd),
            6 => Ok(Kind::IfOr),
            7 => Ok(Kind::Wire),
            8 => Ok(Kind::Out),
            _ => Err(UnknownKind(number)),
        }
    }
}
