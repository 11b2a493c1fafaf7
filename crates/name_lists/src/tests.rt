use crate::{HasName, NameList};
use lists::Items;
use std::alloc::{AllocError, Global};
use std::test::Fail;

#[derive(Drop)]
struct Word {
    text: Items<u8>,
}

impl HasName for Word {
    ghost text = { λ w. w.text };

    fn name(&self) -> &[u8] {
        self.text.as_slice()
    }
}

fn make_word(alloc: Global, number: usize) -> Result<Word, AllocError> {
    let text = format!(in alloc; "w{number}")?;
    Ok(Word {
        text: Items::from_slice(alloc, text.as_bytes())?,
    })
}

fn words(alloc: Global, count: usize) -> Result<NameList<Word>, AllocError> {
    let mut list = NameList::new(alloc);
    for number in 0..count {
        list.push(alloc, make_word(alloc, number)?)?;
    }
    Ok(list)
}

#[test]
fn finds_the_first_of_each_name(rt: HostRuntime) -> Result<(), Fail> {
    let mut list = words(rt.alloc(), 100)?;
    list.append(rt.alloc(), words(rt.alloc(), 50)?)?;
    assert_eq!(rt; list.len(), 150);
    for number in 0..100usize {
        let sought = make_word(rt.alloc(), number)?;
        assert_eq!(rt; list.first(sought.name()), Some(number));
    }
    assert_eq!(rt; list.first(b"w100"), None);
    assert_eq!(rt; list.pop().is_some(), true);
    list.truncate(70);
    assert_eq!(rt; list.first(b"w69"), Some(69));
    assert_eq!(rt; list.first(b"w70"), None);
    list.push(rt.alloc(), make_word(rt.alloc(), 70)?)?;
    assert_eq!(rt; list.first(b"w70"), Some(70));
    assert_eq!(rt; list.as_slice().len(), 71);
    assert_eq!(rt; list.into_items().len(), 71);
    Ok(())
}

#[test]
fn finds_nothing_in_an_empty_list(rt: HostRuntime) {
    let mut list: NameList<Word> = NameList::new(rt.alloc());
    assert_eq!(rt; list.first(b""), None);
    list.truncate(0);
    assert_eq!(rt; list.len(), 0);
}

/// Sixty thousand names, each sought: too many for a look from end to end.
#[test]
fn finds_each_of_many_at_once(rt: HostRuntime) -> Result<(), Fail> {
    let list = words(rt.alloc(), 60_000)?;
    let mut missed = 0u32;
    for (place, sought) in list.as_slice().iter().enumerate() {
        if list.first(sought.name()) != Some(place) {
            missed = missed.wrapping_add(1);
        }
    }
    assert_eq!(rt; missed, 0);
    Ok(())
}

/// One name as often: the first of them is found at once, whatever is taken off.
#[test]
fn finds_the_first_of_one_name_at_once(rt: HostRuntime) -> Result<(), Fail> {
    let mut list = NameList::new(rt.alloc());
    for _turn in 0..60_000u32 {
        list.push(rt.alloc(), make_word(rt.alloc(), 7)?)?;
    }
    for _turn in 0..59_999u32 {
        assert_eq!(rt; list.first(b"w7"), Some(0));
        let _last = list.pop();
    }
    Ok(())
}
