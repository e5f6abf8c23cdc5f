//! A list that is copied, compared and shown.
use crate::list::FixedList;
use std::test::Fail;

#[test]
fn a_copy_is_a_list_of_its_own(rt: HostRuntime) {
    let mut list = FixedList::<u32, 4>::new();
    list.push(7);
    list.push(5);
    let mut copy = list;
    copy.push(3);
    assert_eq!(rt; list.as_slice(), [7, 5].as_slice());
    assert_eq!(rt; copy.as_slice(), [7, 5, 3].as_slice());
}

#[test]
fn lists_are_equal_where_their_elements_are(rt: HostRuntime) -> Result<(), Fail> {
    let mut list = FixedList::<u32, 4>::new();
    list.push(7);
    assert_eq!(rt; list, FixedList::from_slice(&[7]));
    assert_eq!(rt; list.clone()?, list);
    list.push(5);
    assert_eq!(rt; list == FixedList::from_slice(&[7]), false);
    Ok(())
}

#[test]
fn a_list_is_shown_by_its_elements(rt: HostRuntime) -> Result<(), Fail> {
    let list = FixedList::<u32, 4>::from_slice(&[7, 5]);
    assert_eq!(rt; format!(in rt.alloc(); "{list:?}")?.as_str(), "[7, 5]");
    Ok(())
}
