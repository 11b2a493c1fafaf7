use crate::make::{module, numbers};
use std::test::Fail;
use value_numbers::number_values;

const UNKNOWN: u32 = u32::MAX;

#[test]
fn values_have_the_numbers_of_their_places(rt: HostRuntime) -> Result<(), Fail> {
    let numbered = number_values(rt.alloc(), module(rt.alloc())?)?;
    let found = numbers(rt.alloc(), &numbered)?;
    assert_eq!(rt;
        found.as_slice(),
        [
            0, 1, 2, 0, 1, 3, 4, 2, 5, 6, 5, 2, UNKNOWN, UNKNOWN, 6, 4, 3, // branching
            0, 0, 2, 0, // defined twice
        ].as_slice()
    );
    let again = number_values(rt.alloc(), numbered)?;
    assert_eq!(rt; numbers(rt.alloc(), &again)?.as_slice(), found.as_slice());
    Ok(())
}
