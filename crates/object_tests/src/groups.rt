use async_objects::{AddError, Awaited, FreedList, Kind, Objects, State, WokenList};
use ir_forms::TaskNo;
use std::test::Fail;

#[test]
fn an_error_fails_its_group(rt: HostRuntime) -> Result<(), Fail> {
    let alloc = rt.alloc();
    let mut woken = WokenList::new(alloc, 4)?;
    let mut gone = FreedList::new(alloc, 4)?;
    let mut objects = Objects::new(alloc, 4, 4, 4)?;
    let Ok(group) = objects.create(Kind::Group { size: 1 }) else {
        panic!(rt; "no group")
    };
    let Ok(token) = objects.create(Kind::Token) else {
        panic!(rt; "no token")
    };
    objects.set(token, State::Error, &mut woken, &mut gone);
    assert!(rt; objects.add_to_group(token, group, &mut woken) == Ok(0));
    assert!(rt; objects.state(group) == State::Error);
    Ok(())
}

#[test]
fn a_group_of_size_0_is_done_and_full(rt: HostRuntime) -> Result<(), Fail> {
    let alloc = rt.alloc();
    let mut woken = WokenList::new(alloc, 4)?;
    let mut objects = Objects::new(alloc, 4, 4, 4)?;
    let Ok(group) = objects.create(Kind::Group { size: 0 }) else {
        panic!(rt; "no group")
    };
    let Ok(token) = objects.create(Kind::Token) else {
        panic!(rt; "no token")
    };
    assert!(rt; objects.is_done(group));
    assert!(rt; objects.await_on(group, TaskNo(1))? == Awaited::Ready);
    let full = Err(AddError::GroupFull { size: 0 });
    assert!(rt; objects.add_to_group(token, group, &mut woken) == full);
    objects.release(group);
    assert!(rt; objects.live() == 1);
    Ok(())
}

#[test]
fn a_token_counts_in_each_of_its_groups(rt: HostRuntime) -> Result<(), Fail> {
    let alloc = rt.alloc();
    let mut woken = WokenList::new(alloc, 4)?;
    let mut gone = FreedList::new(alloc, 4)?;
    let mut objects = Objects::new(alloc, 4, 4, 4)?;
    let Ok(wide) = objects.create(Kind::Group { size: 3 }) else {
        panic!(rt; "no group")
    };
    let Ok(narrow) = objects.create(Kind::Group { size: 1 }) else {
        panic!(rt; "no group")
    };
    let Ok(token) = objects.create(Kind::Token) else {
        panic!(rt; "no token")
    };
    assert!(rt; objects.await_on(narrow, TaskNo(1))? == Awaited::Parked);
    assert!(rt; objects.add_to_group(token, wide, &mut woken) == Ok(0));
    assert!(rt; objects.add_to_group(token, wide, &mut woken) == Ok(1));
    assert!(rt; objects.add_to_group(token, narrow, &mut woken) == Ok(0));
    assert!(rt; objects.groups(token) == 3 && objects.pending(wide) == 2);
    assert!(rt; objects.count(wide) == 3 && objects.waiting() == 1);
    objects.set(token, State::Available, &mut woken, &mut gone);
    assert!(rt; woken.as_slice() == [TaskNo(1)].as_slice());
    assert!(rt; gone.as_slice().is_empty() && objects.groups(token) == 0);
    assert!(rt; objects.is_done(narrow) && !objects.is_done(wide));
    assert!(rt; objects.pending(wide) == 0 && objects.count(wide) == 1);
    assert!(rt; objects.kind(wide) == Kind::Group { size: 3 } && objects.made() == 3);
    Ok(())
}
