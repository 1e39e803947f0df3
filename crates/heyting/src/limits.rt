// A limit of algebras.

pub const MOST_SPAN: u32 = 65536;
