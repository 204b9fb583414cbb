// A work row, a level's frame of a walk: the input at which two handles are split, what is left of each where its bit is
// down, and where it is up.
#[derive(Clone, Copy, PartialEq, Eq, Debug, Default)]
pub struct Row {
    pub input: u8,
    pub low: u32,
    pub high: u32,
    pub low_other: u32,
    pub high_other: u32,
}
