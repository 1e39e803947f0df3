// The words in which the tour tells what the library answers.
use grammar::connective::Connective;
use grammar::node::Node;
use grammar::told::Told;
use std::fmt;

#[derive(Drop)]
pub(crate) struct Words<T>(pub(crate) T);

impl fmt::Display for Words<Connective> {
    fn fmt<W: fmt::Write>(&self, f: &mut fmt::Formatter<W>) -> fmt::Result {
        match self.0 {
            Connective::And => write!(f, "and"),
            Connective::Or => write!(f, "or"),
            Connective::Implies => write!(f, "implies"),
        }
    }
}

impl fmt::Display for Words<Node> {
    fn fmt<W: fmt::Write>(&self, f: &mut fmt::Formatter<W>) -> fmt::Result {
        match self.0 {
            Node::Falsum => write!(f, "falsum"),
            Node::Letter(byte) => write!(f, "letter {}", byte as char),
            Node::Joined(connective, first, second) => {
                write!(f, "{first} {} {second}", Words(connective))
            }
        }
    }
}

// A refusal of any layer.
#[derive(Drop)]
pub(crate) struct Refused<R>(pub(crate) R);

impl<R: Told + Copy> fmt::Display for Refused<R> {
    fn fmt<W: fmt::Write>(&self, f: &mut fmt::Formatter<W>) -> fmt::Result {
        write!(f, "refused {} at {}", self.0.number(), self.0.place())
    }
}

// A refusal that ends the tour, where the tour can't go on.
pub(crate) fn ending<R: Told + Copy + Drop>(refusal: R) -> anyhow::Error {
    anyhow::Error::msg(Refused(refusal))
}
