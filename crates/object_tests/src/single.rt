use async_objects::{Awaited, Dropped, FreedList, Kind, Objects, State, Val, WokenList};
use ir_forms::TaskNo;
use std::test::Fail;

#[test]
fn a_token_wakes_its_awaiter(rt: HostRuntime) -> Result<(), Fail> {
    let alloc = rt.alloc();
    let mut woken = WokenList::new(alloc, 4)?;
    let mut gone = FreedList::new(alloc, 4)?;
    let mut objects = Objects::new(alloc, 4, 4, 4)?;
    let Ok(token) = objects.create(Kind::Token) else {
        panic!(rt; "no token")
    };
    assert!(rt; objects.await_on(token, TaskNo(3))? == Awaited::Parked);
    objects.set(token, State::Available, &mut woken, &mut gone);
    assert!(rt; woken.as_slice() == [TaskNo(3)].as_slice());
    assert!(rt; gone.as_slice().is_empty());
    assert!(rt; objects.state(token) == State::Available);
    Ok(())
}

#[test]
fn a_value_holds_what_was_stored(rt: HostRuntime) -> Result<(), Fail> {
    let mut objects = Objects::new(rt.alloc(), 4, 4, 4)?;
    let Ok(value) = objects.create(Kind::Value) else {
        panic!(rt; "no value")
    };
    assert!(rt; objects.load(value).is_none());
    objects.store(value, Val::Number(7));
    assert!(rt; objects.load(value) == Some(Val::Number(7)));
    Ok(())
}

#[test]
fn the_last_reference_takes_a_group_out(rt: HostRuntime) -> Result<(), Fail> {
    let mut objects = Objects::new(rt.alloc(), 4, 4, 4)?;
    let Ok(group) = objects.create(Kind::Group { size: 1 }) else {
        panic!(rt; "no group")
    };
    objects.add_ref(group, 2);
    assert!(rt; objects.drop_ref(group, 2) == Dropped::Left);
    assert!(rt; objects.drop_ref(group, 1) == Dropped::Last);
    assert!(rt; objects.live() == 0);
    Ok(())
}
