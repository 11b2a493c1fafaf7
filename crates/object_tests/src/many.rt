use async_objects::{CreateError, Kind, Objects};
use std::test::Fail;

#[test]
fn as_many_objects_as_may_be(rt: HostRuntime) -> Result<(), Fail> {
    let mut objects = Objects::new(rt.alloc(), 65_536, 65_536, 0)?;
    for number in 0..65_536u32 {
        match objects.create(Kind::Token) {
            Ok(made) => assert!(rt; made.0 == number),
            Err(_) => panic!(rt; "no token"),
        }
    }
    let full = CreateError::ObjectsFull { live: 65_536 };
    assert!(rt; objects.create(Kind::Value) == Err(full));
    Ok(())
}
