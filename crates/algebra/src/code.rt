ghost use Rattle.std.specs.Prelude.{◌≡◌, ◌<◌};
ghost use Rattle.algebra.specs.Ops.{read};

// A code below the count as it is, any other as 0.
pub(crate) fn read<const COUNT: u8>(code: u8) -> u8
    ensures value { result ≡ read COUNT code }
    ensures within { 0 < COUNT → result < COUNT }
{
    if code < COUNT { code } else { 0 }
}
