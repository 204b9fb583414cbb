// A field is read by a guess: its bytes come to one number at most, which is written again and compared. So the writers
// alone say what a field looks like.
ghost use Rattle.std.specs.Prelude.{◌≡◌, ℕ, ◌^◌, ◌<◌, true, length, Some, MatchOption, ◌≢◌};
ghost use Rattle.netlist.specs.Kinds.{kind_number};
ghost use Rattle.text.specs.Rows.{operand_field};
ghost use Rattle.text.specs.Guesses.{columns, digit_value, guessed};
ghost use Rattle.text.specs.Netlists.{kind_word, second_operand, takes_one};

use netlist::Kind;

// A number in so many columns. Where it is too long, its last digits are shown.
pub(crate) fn columns<const N: usize>(n: u64) -> [u8; N]
    ensures { result ≡ columns N n }
{
    let mut field = [b' '; N];
    let mut rest = n;
    // By index: of an array that `iter_mut().rev()` wrote, a proof knows the length alone.
    for i in (0..N).rev() {
        if rest > 0 || i + 1 == N {
            field[i] = b'0' + (rest % 10) as u8;
        }
        rest /= 10;
    }
    field
}

// An operand in six columns.
pub(crate) fn operand_bytes(operand: Option<u32>) -> [u8; 6]
    ensures { result ≡ operand_field operand }
{
    match operand {
        None => *b"     -",
        Some(n) => columns(u64::from(n)),
    }
}

fn digit_value(b: u8) -> u32
    ensures { (result ≡ digit_value b) × (result < 10) }
{
    if b.is_ascii_digit() {
        u32::from(b - b'0')
    } else {
        0
    }
}

fn guess(s: &[u8]) -> u32
    requires { length s.now < 10 }
    ensures { (result ≡ guessed s.now) × (result < 10 ^ length s.now) }
{
    let mut n = 0;
    for b in s {
        n = n * 10 + digit_value(*b);
    }
    n
}

// The number in so many columns.
pub(crate) fn read_number<const N: usize>(s: &[u8]) -> Option<u32>
    requires few { N < 10 }
    requires whole { length s.now ≡ N }
    ensures { MatchOption result ((n : ℕ) → n < 10 ^ N → s.now ≢ columns N n) (λ n. (n < 10 ^ N) × (s.now ≡ columns N n)) }
{
    let n = guess(s);
    (s == columns::<N>(u64::from(n)).as_slice()).then_some(n)
}

// The kind that a word names.
pub(crate) fn read_kind(s: &[u8]) -> Option<Kind>
    ensures { MatchOption result ((k : ℕ) → k < 9 → s.now ≢ kind_word k) (λ k. s.now ≡ kind_word (kind_number k)) }
{
    match s {
        b"INPUT " => Some(Kind::Input),
        b"CONST " => Some(Kind::Const),
        b"NOT   " => Some(Kind::Not),
        b"AND   " => Some(Kind::And),
        b"OR    " => Some(Kind::Or),
        b"IFAND " => Some(Kind::IfAnd),
        b"IFOR  " => Some(Kind::IfOr),
        b"WIRE  " => Some(Kind::Wire),
        b"OUT   " => Some(Kind::Out),
        _ => None,
    }
}

// Whether lines of the kind leave their second operand unused.
fn takes_one_operand(kind: Kind) -> bool
    ensures { result ≡ takes_one (kind_number kind) }
{
    matches!(kind, Kind::Input | Kind::Const | Kind::Not | Kind::Out)
}

// The second operand of a line: 0 where it is unused, as lines have it, and then a hyphen stands in its field.
pub(crate) fn read_second(kind: Kind, s: &[u8]) -> Option<u32>
    requires { length s.now ≡ 6 }
    ensures { MatchOption result
        ((n : ℕ) → n < 1000000 → s.now ≢ operand_field (second_operand (kind_number kind) n))
        (λ n. (n < 1000000) × (takes_one (kind_number kind) ≡ true → n ≡ 0) × (s.now ≡ operand_field (second_operand (kind_number kind) n))) }
{
    if takes_one_operand(kind) {
        return (s == b"     -".as_slice()).then_some(0);
    }
    read_number::<6>(s)
}
