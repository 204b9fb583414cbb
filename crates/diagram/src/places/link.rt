ghost use Rattle.std.specs.Prelude.{◌≡◌, ◌+◌, ◌≤◌, MatchOption};
ghost use Rattle.diagram.specs.Chains.{rank};

// The next place of a chain, if there is one: its number and one more, or 0. An `Option<u32>` takes eight bytes where this
// takes four, and with it each case of bench/ took longer, by 1 to 11 in a hundred.
#[derive(Clone, Copy, Default)]
pub(super) struct Link {
    number: u32,
}

impl Link {
    pub(super) fn to(p: usize) -> Link
        requires { p ≤ 1048576 }
        ensures { rank result ≡ p + 1 }
    {
        Link {
            number: p as u32 + 1,
        }
    }

    pub(super) fn place(self) -> Option<usize>
        ensures { MatchOption result (rank self ≡ 0) (λ p. rank self ≡ p + 1) }
    {
        (self.number as usize).checked_sub(1)
    }
}
