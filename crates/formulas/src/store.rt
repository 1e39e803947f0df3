// A store of formulas over the caller's records.
ghost use Rattle.std.specs.Prelude.{◌≤◌, take, vec_len};
ghost use Rattle.grammar.specs.Contents.{Base, Once, AllFitting};
ghost use Rattle.grammar.specs.Limits.{most_records};
ghost use Rattle.grammar.specs.Records.{formulas, Founded};

use grammar::node::Node;

mod enter;
pub mod make;
pub mod parts;
mod place;
pub mod read;
pub mod size;
mod stored;
pub mod write;

// The first records are in use. They stand for # and the letters first, then for joined formulas, each after its parts and each once;
// and what is stored can be written and read back.
// All records stay, beside the number in use: they are the caller's, who gets them back, and no call on a store allocates.
#[derive(Drop)]
pub struct Store {
    nodes: Vec<Node>,
    used: usize,
    ghost within: { used ≤ vec_len nodes },
    ghost most: { used ≤ most_records },
    ghost founded: { Founded (take used nodes.items) },
    ghost base: { Base (formulas (take used nodes.items)) },
    ghost once: { Once (formulas (take used nodes.items)) },
    ghost fitting: { AllFitting (formulas (take used nodes.items)) },
}
