// How a derivation is made.

#[derive(Clone, Copy, PartialEq, Debug)]
pub enum Mode {
    Constructive,
    Classical,
}
