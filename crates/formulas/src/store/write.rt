// Writes a formula's text.
ghost use Rattle.std.specs.Prelude.{◌≡◌, ◌+◌, ◌≤◌, length, take, IfOk};
ghost use Rattle.grammar.specs.Contents.{formula_at};
ghost use Rattle.grammar.specs.Writing.{put, Written, ReadsBack};
ghost use Rattle.formulas.specs.Spelled.{SpelledBy, text_of};
ghost use Rattle.formulas.specs.Stores.{contents};

use crate::store::Store;
use crate::store::make::FALSUM;
use crate::store::stored::Stored;
use grammar::connective::Connective;
use grammar::node::Node;
use grammar::refusal::Refusal;

// How a formula is spelled: its byte, or its parts, with the byte of their sign.
#[derive(Clone, Copy)]
enum Spelling<'a> {
    Atom(u8),
    Negation(Stored<'a>),
    Joined(u8, Stored<'a>, Stored<'a>),
}

impl Store {
    // Writes the text of a stored formula to the front of a buffer, and answers its length.
    pub fn write(&self, place: usize, buffer: &mut [u8]) -> Result<usize, Refusal>
        ensures written { Written (contents self.now) place buffer.old buffer.new result }
        ensures back { IfOk result (λ n. ReadsBack (formula_at (contents self.now) place) (take n buffer.new)) }
    {
        let formula = self.stored(place)?;
        if buffer.len() < formula.text_len() {
            return Err(Refusal::ShortBuffer);
        }
        Ok(formula.write_at(buffer, 0))
    }
}

impl<'a> Stored<'a> {
    // How the formula is spelled.
    fn spelling(self) -> Spelling<'a>
        ensures { SpelledBy self.entry result }
    {
        match self.node() {
            Node::Falsum => Spelling::Atom(b'#'),
            Node::Letter(letter) => Spelling::Atom(letter),
            Node::Joined(connective, first, second) => {
                // Tried by a pattern for the negation: the proof of the next arm then does not know that the formula is none.
                let (first, second) = (first as usize, second as usize);
                if connective == Connective::Implies && second == FALSUM {
                    Spelling::Negation(self.below(first))
                } else {
                    Spelling::Joined(u8::from(connective), self.below(first), self.below(second))
                }
            }
        }
    }

    // How long the formula's text is.
    fn text_len(self) -> usize
        ensures { result ≡ length (text_of self.entry) }
    {
        match self.spelling() {
            Spelling::Atom(_) => 1,
            Spelling::Negation(part) => part.text_len() + 1,
            Spelling::Joined(_, first, second) => first.text_len() + second.text_len() + 3,
        }
    }

    // Writes the text from a place of the buffer on, and answers where it ends, which is where the next part begins.
    fn write_at(self, buffer: &mut [u8], at: usize) -> usize
        requires { at + length (text_of self) ≤ length buffer.old }
        ensures ends { result ≡ at + length (text_of self.entry) }
        ensures wrote { buffer.new ≡ put buffer.old at (text_of self.entry) }
    {
        match self.spelling() {
            Spelling::Atom(byte) => {
                buffer[at] = byte;
                at + 1
            }
            Spelling::Negation(part) => {
                buffer[at] = b'~';
                part.write_at(buffer, at + 1)
            }
            Spelling::Joined(sign, first, second) => {
                buffer[at] = b'(';
                let middle = first.write_at(buffer, at + 1);
                buffer[middle] = sign;
                let end = second.write_at(buffer, middle + 1);
                buffer[end] = b')';
                end + 1
            }
        }
    }
}
