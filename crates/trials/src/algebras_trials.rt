// Frames of up to three worlds against tables computed by the definition, and the limits of frames, products and evaluating.
ghost use Rattle.std.specs.Prelude.{◌≡◌, ◌≤◌};

use algebras::algebra::Algebra;
use degrees::chain::Chain;
use formulas::store::Store;
use frames::frame::Frame;
use grammar::node::Node;
use grammar::told::Told;
use heyting::refusal::Refusal;
use layers::product::Product;
use std::alloc::{AllocError, Global};
use std::process::Abort;
use std::test::Fail;
use weighing::evaluate::evaluate;
use weighing::valuation::Valuation;

// A relation on the first of three worlds: the bit of worth 2^(3u + v) says that u is related to v.
#[derive(Clone, Copy)]
struct Relation {
    worlds: u32,
    related: u32,
    ghost few: { worlds ≤ 3 },
}

// The set of one pair, or for a pair past three worlds of none.
fn set_of(u: u32, v: u32) -> u32 {
    if u < 3 && v < 3 { 1 << (3 * u + v) } else { 0 }
}

impl Relation {
    fn has(self, u: u32, v: u32) -> bool {
        self.related & set_of(u, v) != 0
    }

    fn with(self, u: u32, v: u32) -> Relation
        ensures { result.worlds ≡ self.worlds }
    {
        Relation {
            worlds: self.worlds,
            related: self.related | set_of(u, v),
        }
    }

    // The reflexive and transitive closure.
    fn closure(self) -> Relation {
        let mut order = self;
        for u in 0..self.worlds {
            order = order.with(u, u);
        }
        for middle in 0..self.worlds {
            for u in 0..self.worlds {
                for v in 0..self.worlds {
                    if order.has(u, middle) && order.has(middle, v) {
                        order = order.with(u, v);
                    }
                }
            }
        }
        order
    }

    fn pairs(self, heap: Global) -> Result<Vec<(u32, u32)>, AllocError> {
        let mut pairs = Vec::new(heap);
        for u in 0..self.worlds {
            for v in 0..self.worlds {
                if self.has(u, v) {
                    pairs.push((u, v))?;
                }
            }
        }
        Ok(pairs)
    }

    // Whether `a` has with each of the worlds all above it.
    fn is_member(self, a: u32) -> bool {
        a < 1 << self.worlds
            && (0..self.worlds).all(|u| {
                (0..self.worlds).all(|v| !self.has(u, v) || !in_set(a, u) || in_set(a, v))
            })
    }

    // The worlds `u` such that every world of `a` at or above `u` is in `b`.
    fn arrow(self, a: u32, b: u32) -> u32 {
        let mut set = 0;
        for u in 0..self.worlds {
            if (0..self.worlds).all(|v| !self.has(u, v) || !in_set(a, v) || in_set(b, v)) {
                set |= 1 << u;
            }
        }
        set
    }
}

fn in_set(a: u32, u: u32) -> bool {
    u < 3 && a >> u & 1 == 1
}

fn check_frame(rt: &impl Abort, frame: &Frame, order: Relation) {
    let span = 1 << order.worlds;
    assert_eq!(rt; frame.span(), span);
    assert_eq!(rt; frame.bottom(), 0);
    assert_eq!(rt; frame.top(), span - 1);
    for a in 0..9 {
        let is_member = order.is_member(a);
        assert_eq!(rt; frame.contains(a), is_member);
        for b in 0..9 {
            let both = is_member && order.is_member(b);
            assert_eq!(rt; frame.meet(a, b), if both { a & b } else { 0 });
            assert_eq!(rt; frame.join(a, b), if both { a | b } else { 0 });
            assert_eq!(rt; frame.arrow(a, b), if both { order.arrow(a, b) } else { 0 });
        }
    }
}

#[test]
fn frames_of_three_worlds_are_as_defined(rt: HostRuntime) -> Result<(), Fail> {
    let mut frame = Frame::new();
    for worlds in 1..4 {
        for code in 0..512 {
            let related = Relation {
                worlds,
                related: code,
            };
            frame.load(worlds, &related.pairs(rt.alloc())?)?;
            check_frame(&rt, &frame, related.closure());
        }
    }
    Ok(())
}

#[test]
fn loads_are_refused_at_the_first_bad_pair(rt: HostRuntime) {
    let mut frame = Frame::new();
    assert_eq!(rt; frame.load(2, &[(0, 1)]), Ok(()));
    for worlds in [0, 13, 99999] {
        assert_eq!(rt;
            frame.load(worlds, &[(99999, 99999)]),
            Err(Refusal::WorldsOutOfRange)
        );
    }
    assert_eq!(rt;
        frame.load(3, &[(0, 1), (2, 3), (9, 9)]),
        Err(Refusal::NoSuchWorld(2))
    );
    assert_eq!(rt; frame.load(12, &[(65536, 0)]), Err(Refusal::NoSuchWorld(1)));
    assert_eq!(rt;
        frame.load(12, &[(11, 0), (0, 256)]),
        Err(Refusal::NoSuchWorld(2))
    );
    assert_eq!(rt; frame.span(), 4);
    assert!(rt; !frame.contains(1));
    assert_eq!(rt; frame.load(12, &[(11, 0), (0, 11)]), Ok(()));
    assert_eq!(rt; frame.span(), 4096);
}

#[test]
fn chains_have_as_many_degrees_as_a_span_may_have(rt: HostRuntime) {
    for degrees in [1, 65536] {
        let chain = Chain::new(degrees);
        assert_eq!(rt; chain.map(|chain| chain.span()), Ok(degrees));
    }
    for degrees in [0, 65537] {
        let refusal = Chain::new(degrees).err();
        let told = refusal.map(|refusal| (refusal.number(), refusal.place()));
        assert_eq!(rt; told, Some((19, 0)));
    }
}

#[test]
fn products_stand_over_frames_products_chains_and_references(rt: HostRuntime) -> Result<(), Fail> {
    let mut twelve = Frame::new();
    let mut four = Frame::new();
    let mut five = Frame::new();
    assert_eq!(rt; twelve.load(12, &[]), Ok(()));
    assert_eq!(rt; four.load(4, &[]), Ok(()));
    assert_eq!(rt; five.load(5, &[]), Ok(()));
    let Err(not_made) = Product::new(&twelve, &five) else {
        return Err(Fail::new("made over 65,536"));
    };
    assert_eq!(rt; not_made.refusal, Refusal::SpanTooLarge);
    assert_eq!(rt; not_made.first.span(), 4096);
    assert_eq!(rt; not_made.second.span(), 32);
    let widest = Product::new(&twelve, &four).map_err(Refusal::from)?;
    assert_eq!(rt; widest.span(), 65536);
    assert_eq!(rt; widest.top(), 65535);
    assert_eq!(rt; widest.split(65535), (4095, 15));
    assert_eq!(rt; widest.split(4294967295), (268435455, 15));
    assert!(rt; !widest.contains(65536));
    assert_eq!(rt; widest.meet(65536, 3), 0);
    let grades = Chain::new(3)?;
    let inner = Product::new(grades, Frame::new()).map_err(Refusal::from)?;
    let outer = Product::new(&inner, grades).map_err(Refusal::from)?;
    assert_eq!(rt; outer.span(), 18);
    assert_eq!(rt; outer.arrow(16, 5), 5);
    Ok(())
}

#[test]
fn evaluating_fills_and_refuses(rt: HostRuntime) -> Result<(), Fail> {
    let mut store = Store::new(vec![in rt.alloc(); Node::Falsum; 40]?).map_err(
        grammar::refusal::Refusal::from,
    )?;
    store.read(b"(p|~p)")?;
    let mut frame = Frame::new();
    assert_eq!(rt; frame.load(2, &[(0, 1)]), Ok(()));
    let mut valuation = Valuation { letters: [0; 26] };
    valuation.letters[15] = 2;
    let mut values = [77; 30];
    assert_eq!(rt; evaluate(&store, &frame, &valuation, &mut values), Ok(()));
    assert!(rt; &values[26..30] == [0, 0, 2, 77].as_slice());
    assert!(rt; values[0] == 0 && values[1] == 0 && values[16] == 2);
    let mut short = [77; 28];
    valuation.letters[0] = 1;
    assert_eq!(rt;
        evaluate(&store, &frame, &valuation, &mut short),
        Err(Refusal::ShortBuffer)
    );
    assert_eq!(rt;
        evaluate(&store, &frame, &valuation, &mut values),
        Err(Refusal::LetterNotMember(1))
    );
    valuation.letters[0] = 0;
    valuation.letters[25] = 4;
    assert_eq!(rt;
        evaluate(&store, &frame, &valuation, &mut values),
        Err(Refusal::LetterNotMember(26))
    );
    assert!(rt; &values[26..30] == [0, 0, 2, 77].as_slice());
    assert!(rt; !short.contains(&0));
    Ok(())
}
