// Derivations out of textbooks, each written by the calls, sealed, and asked for its sequent.
use crate::textbook::{CLASSICAL, CONSTRUCTIVE, Textbook};
use crate::writing::read;
use fitch::mode::Mode;
use fitch::refusal::Refusal;
use std::alloc::Global;
use std::process::Abort;
use std::test::Fail;

fn check(rt: &impl Abort, heap: Global, textbook: &Textbook, mode: Mode) -> Result<(), Fail> {
    let script = read(heap, textbook)?;
    let sequent = script.derive(rt, mode)?;
    assert_eq!(rt; sequent.mode, mode);
    assert!(rt;
        sequent.premises() == script.premises.as_slice(),
        "{}",
        textbook.title
    );
    assert_eq!(rt; sequent.conclusion, script.conclusion, "{}", textbook.title);
    Ok(())
}

#[test]
fn constructive_derivations_are_accepted_in_both_modes(rt: HostRuntime) -> Result<(), Fail> {
    for textbook in &CONSTRUCTIVE {
        check(&rt, rt.alloc(), textbook, Mode::Constructive)?;
        check(&rt, rt.alloc(), textbook, Mode::Classical)?;
    }
    Ok(())
}

#[test]
fn classical_derivations_are_accepted_in_classical_mode_only(rt: HostRuntime) -> Result<(), Fail> {
    for textbook in &CLASSICAL {
        check(&rt, rt.alloc(), textbook, Mode::Classical)?;
        assert_eq!(rt;
            read(rt.alloc(), textbook)?
                .derive(&rt, Mode::Constructive)
                .err(),
            Some(Refusal::NotOfMode)
        );
    }
    Ok(())
}
