//! The map of objects by id.

use res_objects::ObjMap;
use std::test::Fail;

// A group of flow filters, as a device keeps it.
#[derive(Debug, PartialEq, Drop)]
struct Group {
    priority: u16,
}

fn make_group(priority: u16) -> Group {
    Group { priority }
}

#[test]
fn answers_each_call(rt: HostRuntime) -> Result<(), Fail> {
    let mut map = ObjMap::new(rt.alloc(), 2)?;
    assert_eq!(rt; map.create(7, make_group(70)), Ok(()));
    assert_eq!(rt; map.create(3, make_group(30)), Ok(()));
    assert_eq!(rt; map.modify(3, make_group(31)), Ok(make_group(30)));
    assert_eq!(rt; map.len(), 2);
    assert_eq!(rt; map.query(3).map(|g| g.priority), Some(31));
    assert_eq!(rt; map.at(1).map(|(id, g)| (id, g.priority)), Some((7, 70)));
    assert_eq!(rt; map.destroy(7), Ok(make_group(70)));
    Ok(())
}
