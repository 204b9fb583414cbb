// One place of a table: the handles of its 0 side and its 1 side, its reach, a mask with bit v up when value v occurs,
// and the input that it tests. The key of a record is its input and its two sides.
#[derive(Clone, Copy, PartialEq, Eq, Debug, Default)]
pub struct Record {
    pub low: u32,
    pub high: u32,
    pub reach: u16,
    pub input: u8,
}
