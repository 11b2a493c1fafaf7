use crate::data::{
    awaits_all, awaits_group, awaits_in_turn, awaits_positive, awaits_seven, positive, seven,
};
use crate::expected::{
    AWAITS_ALL, AWAITS_GROUP, AWAITS_IN_TURN, AWAITS_POSITIVE, AWAITS_SEVEN, POSITIVE, SEVEN,
};
use crate::show::shown;
use coro_lower::to_runtime;
use lists::Items;
use low_forms::{LowFunc, LowModule, well_formed};
use std::alloc::{AllocError, Global};
use std::test::Fail;

/// The text of the code that is made of these functions; nothing where it isn't well formed.
fn made(alloc: Global, funcs: Items<LowFunc>) -> Result<String, AllocError> {
    let code = to_runtime(alloc, LowModule { funcs })?;
    if well_formed(alloc, &code)? {
        shown(alloc, &code)
    } else {
        Ok(String::new(alloc))
    }
}

#[test]
fn a_task_that_gives_seven(rt: HostRuntime) -> Result<(), Fail> {
    let alloc = rt.alloc();
    let mut funcs = Items::new(alloc);
    funcs.push(awaits_seven(alloc)?)?;
    funcs.push(seven(alloc)?)?;
    let expected = format!(in alloc; "{AWAITS_SEVEN}{SEVEN}")?;
    assert_eq!(rt; made(alloc, funcs)?, expected);
    Ok(())
}

#[test]
fn a_task_that_awaits_another(rt: HostRuntime) -> Result<(), Fail> {
    let alloc = rt.alloc();
    let mut funcs = Items::new(alloc);
    funcs.push(awaits_positive(alloc)?)?;
    funcs.push(seven(alloc)?)?;
    funcs.push(positive(alloc)?)?;
    let expected = format!(in alloc; "{AWAITS_POSITIVE}{SEVEN}{POSITIVE}")?;
    assert_eq!(rt; made(alloc, funcs)?, expected);
    Ok(())
}

#[test]
fn awaits_of_groups_and_in_loops(rt: HostRuntime) -> Result<(), Fail> {
    let alloc = rt.alloc();
    let mut funcs = Items::new(alloc);
    funcs.push(awaits_all(alloc)?)?;
    funcs.push(awaits_group(alloc)?)?;
    funcs.push(awaits_in_turn(alloc)?)?;
    let expected = format!(in alloc; "{AWAITS_ALL}{AWAITS_GROUP}{AWAITS_IN_TURN}")?;
    assert_eq!(rt; made(alloc, funcs)?, expected);
    Ok(())
}
