// The turns of records.

mod follow;

// A proof file alone, or a proof file, the record `=`, and an algebra file.
#[derive(Clone, Copy, PartialEq, Debug)]
pub enum Format {
    Proof,
    Weighing,
}

// What has come so far: nothing; the mode and premises; an assumption, a step or a close as well; then `=`; a base; two bases; a layer; values.
#[derive(Clone, Copy, PartialEq, Debug)]
pub enum Turn {
    Start,
    Premises,
    Body,
    Parted,
    First,
    Second,
    Layered,
    Values,
}
