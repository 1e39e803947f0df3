// Algebras over other algebras.
//
//   product::Product       the pairs of members of any two algebras
//     Product::new         the product, or `product::make::NotMade`: a refusal with both algebras
//     split                the two parts of a code
#![tactic(auto)]

pub mod product;
