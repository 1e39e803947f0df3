// The fields of a record.

mod next;

// What is left of a record; none once its last field was taken.
#[derive(Clone, Copy)]
pub struct Fields<'r> {
    pub rest: Option<&'r [u8]>,
}
