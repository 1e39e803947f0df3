// Formulas in a store: read from text, kept once, taken apart, and written back.
//
//   store::Store              the store, over records that the caller hands over and gets back
//     Store::new              a fresh store, or `store::make::NotMade`: a refusal with the records, which turns into the refusal alone
//     count, capacity         records in use, and records that may be used
//     read                    a text's formula, entered if it is missing
//     node                    how the formula at a place is made of others
//     write                   the text of the formula at a place, into a buffer
//     into_records            the records back
//   store::make::FALSUM       the place of # in every store
#![tactic(auto)]

pub mod store;
