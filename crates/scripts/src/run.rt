// Runs of records.

pub(crate) mod acts;
pub(crate) mod premises;
