// What a memo files a handle under: the number of an operation, and two handles.
#[derive(Clone, Copy, PartialEq, Eq, Debug, Default)]
pub struct Key {
    pub x: u32,
    pub y: u32,
    pub op: u8,
}
