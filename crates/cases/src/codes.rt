// The codes of the values of five that are no bits, as handles and as operands of CONST lines.
pub(crate) const X: u32 = 2;

pub(crate) const Z: u32 = 3;

pub(crate) const S: u32 = 4;
