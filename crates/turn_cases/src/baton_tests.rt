use crate::log::{Log, add};
use baton::{Baton, Busy, Storied};
use micro_isa::List;
use std::test::Fail;

#[test]
fn passes_take_in_turn(rt: HostRuntime) -> Result<(), Fail> {
    let log = Log::of(Vec::new(rt.alloc()));
    let Ok((baton, passes)) = Baton::open(rt.alloc(), log, 2) else {
        panic!(rt; "no memory")
    };
    let mut passes = passes.into_vec();
    let Some(mut two) = passes.pop() else {
        panic!(rt; "two passes")
    };
    let Some(mut one) = passes.pop() else {
        panic!(rt; "two passes")
    };
    assert_eq!(rt; one.number(), 1);
    assert_eq!(rt; two.number(), 2);
    let held = match baton.try_take(&mut one) {
        Ok(held) => held,
        Err(_) => panic!(rt; "it was free"),
    };
    match baton.try_take(&mut two) {
        Ok(_) => panic!(rt; "it was taken"),
        Err(busy) => assert_eq!(rt; busy, Busy { holder: 1 }),
    }
    baton.put(&mut one, held);
    assert!(rt; add(&baton, &mut two, 7));
    assert_eq!(rt; baton.length(&mut one), 1);
    let Ok(note) = baton.note(&mut two) else {
        panic!(rt; "a note is always there")
    };
    baton.learn(&mut one, note);
    passes.push_reserved(one);
    passes.push_reserved(two);
    let log = baton.close(&rt, List::of(passes));
    assert_eq!(rt; log.length(), 1);
    Ok(())
}
