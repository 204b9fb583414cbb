ghost use Rattle.std.specs.Prelude.{◌≡◌, length};
ghost use Rattle.netlist.specs.Cases.{cases, Worked};

// How many worked cases there are. That each comes out as it is to be is this function's contract, one computed list.
pub fn worked_cases() -> u8
    ensures count { result ≡ length cases }
    ensures worked { Worked }
{
    17
}
