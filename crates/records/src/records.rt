// The records of an input.

mod next;

// What is left of an input.
#[derive(Clone, Copy)]
pub struct Records<'i> {
    pub rest: &'i [u8],
}

// A record without the byte 10 that ends it, and whether it was there.
#[derive(Clone, Copy)]
pub struct Record<'i> {
    pub bytes: &'i [u8],
    pub ended: bool,
}
