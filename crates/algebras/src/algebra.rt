// What an algebra answers.
ghost use Rattle.std.specs.Prelude.{◌≡◌};
ghost use Rattle.heyting.specs.Meaning.{Meaning, Lawful, Member, guarded};
ghost use Rattle.heyting.specs.Values.{operation};

use grammar::connective::Connective;

// A Heyting algebra whose members are numbers below a span. An implementation says what it means, shows that this obeys the laws,
// and answers by it. Of its operations it writes those on members; at other numbers they answer the bottom.
pub trait Algebra {
    ghost means: { Self → Meaning };

    ghost lawful: { (x : Self) → Lawful (means x) };

    fn span(&self) -> u32
        ensures { result ≡ (means self.now).span };

    fn contains(&self, a: u32) -> bool
        ensures { result ≡ (means self.now).member a };

    fn bottom(&self) -> u32
        ensures { result ≡ (means self.now).bottom };

    fn top(&self) -> u32
        ensures { result ≡ (means self.now).top };

    // Which numbers are members is a matter of the algebra's value, so that no type of numbers can carry it.
    fn meet_of(&self, a: u32, b: u32) -> u32
        requires first { Member (means self.now) a }
        requires second { Member (means self.now) b }
        ensures { result ≡ (means self.now).meet a b };

    fn join_of(&self, a: u32, b: u32) -> u32
        requires first { Member (means self.now) a }
        requires second { Member (means self.now) b }
        ensures { result ≡ (means self.now).join a b };

    fn arrow_of(&self, a: u32, b: u32) -> u32
        requires first { Member (means self.now) a }
        requires second { Member (means self.now) b }
        ensures { result ≡ (means self.now).arrow a b };

    // The operation that a connective stands for.
    fn operation_of(&self, connective: Connective, a: u32, b: u32) -> u32
        requires first { Member (means self.now) a }
        requires second { Member (means self.now) b }
        ensures { result ≡ operation (means self.now) connective a b }
    {
        match connective {
            Connective::And => self.meet_of(a, b),
            Connective::Or => self.join_of(a, b),
            Connective::Implies => self.arrow_of(a, b),
        }
    }

    fn operation(&self, connective: Connective, a: u32, b: u32) -> u32
        ensures { result ≡ guarded (means self.now) (operation (means self.now) connective) a b }
    {
        if self.contains(a) && self.contains(b) {
            self.operation_of(connective, a, b)
        } else {
            self.bottom()
        }
    }

    fn meet(&self, a: u32, b: u32) -> u32
        ensures { result ≡ guarded (means self.now) (means self.now).meet a b }
    {
        self.operation(Connective::And, a, b)
    }

    fn join(&self, a: u32, b: u32) -> u32
        ensures { result ≡ guarded (means self.now) (means self.now).join a b }
    {
        self.operation(Connective::Or, a, b)
    }

    fn arrow(&self, a: u32, b: u32) -> u32
        ensures { result ≡ guarded (means self.now) (means self.now).arrow a b }
    {
        self.operation(Connective::Implies, a, b)
    }
}
