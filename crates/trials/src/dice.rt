// Numbers that look random and are the same in every run.
ghost use Rattle.std.specs.Prelude.{◌<◌};

#[derive(Drop)]
pub(crate) struct Dice {
    state: u64,
}

impl Dice {
    // The seed is any number but 0.
    pub(crate) fn new(seed: u64) -> Dice {
        Dice { state: seed }
    }

    // The next number: a xorshift, and then its upper half times a constant.
    fn roll(&mut self) -> u64 {
        let mut x = self.state;
        x ^= x >> 12;
        x ^= x << 25;
        x ^= x >> 27;
        self.state = x;
        x.wrapping_mul(0x2545_f491_4f6c_dd1d) >> 32
    }

    // A number below `count`, or 0 where that is 0.
    pub(crate) fn below(&mut self, count: u32) -> u32
        ensures { 0 < count → result < count }
    {
        if count == 0 {
            return 0;
        }
        (self.roll() % u64::from(count)) as u32
    }

    // Whether one roll in so many comes out.
    pub(crate) fn one_in(&mut self, count: u32) -> bool {
        self.below(count) == 0
    }
}
