// What the states of a derivation have in common: the checks of every call that writes, and the lines to be read.
// Each state holds the store and the slice of line records that are lent, the number of lines written, and the mode.
// The slice is the caller's, and may be longer than what is written; the number says how far it is.
// Each has them as fields of its own: of a slice behind a further struct, who lent it would know nothing once the state is dropped.
pub(crate) mod check;
pub(crate) mod page;
