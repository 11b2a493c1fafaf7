use crate::Items;
use std::test::Fail;

#[test]
fn items_grow_and_shrink(rt: HostRuntime) -> Result<(), Fail> {
    let mut list = Items::from_slice(rt.alloc(), &[1u8, 2])?;
    list.push(3)?;
    assert_eq!(rt; list.len(), 3);
    list.set(0, 9);
    assert_eq!(rt; list.get(0).copied(), Some(9));
    list.as_mut_slice()[1] = 2;
    assert_eq!(rt; list.pop(), Some(3));
    assert_eq!(rt; list.as_slice(), [9, 2].as_slice());
    let copy = list.clone()?;
    assert!(rt; copy == list);
    assert!(rt; !copy.is_empty());
    Ok(())
}

#[test]
fn items_begin_empty(rt: HostRuntime) -> Result<(), Fail> {
    let list: Items<u8> = Items::new(rt.alloc());
    assert!(rt; list.is_empty());
    let list = Items::from_vec(vec![in rt.alloc(); 7u8]?);
    assert_eq!(rt; list.len(), 1);
    Ok(())
}
