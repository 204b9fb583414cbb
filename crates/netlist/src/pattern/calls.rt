ghost use Rattle.std.specs.Prelude.{◌≡◌, ◌-◌, ◌%◌, ◌^◌, ◌<◌, ◌≤◌, MatchResult};
ghost use Rattle.netlist.specs.Signals.{bit};
ghost use Rattle.netlist.specs.Patterns.{pattern_fault_number};

use super::{MOST_INPUTS, Pattern, PatternFault};

impl PatternFault {
    // The number of the refusal.
    pub fn number(self) -> u8
        ensures { result ≡ pattern_fault_number self }
    {
        self as u8
    }
}

impl Pattern {
    pub fn new(width: u8, number: u64) -> Result<Pattern, PatternFault>
        ensures { MatchResult result
            (λ p. (p.width ≡ width) × (p.number ≡ number) × (width ≤ 60) × (number < 2 ^ width))
            (λ _. (width ≤ 60 → number < 2 ^ width → ⊥)) }
    {
        if width > MOST_INPUTS || number >> width != 0 {
            return Err(PatternFault::OutOfBounds);
        }
        Ok(Pattern { width, number })
    }

    pub fn width(&self) -> u8
        ensures { result ≡ self.now.width }
    {
        self.width
    }

    pub fn number(&self) -> u64
        ensures { result ≡ self.now.number }
    {
        self.number
    }

    // The bit of an input: 0 or 1, and 0 for an input that the pattern does not have.
    pub fn bit(&self, input: u8) -> u8
        ensures of_input { input < self.now.width → result ≡ bit self.now.width self.now.number input }
        ensures of_none { self.now.width ≤ input → result ≡ 0 }
    {
        if input >= self.width {
            return 0;
        }
        ((self.number >> (self.width - 1 - input)) % 2) as u8
    }
}
