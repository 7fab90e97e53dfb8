//! Loads that are drawn from a seed.

use generated_load::{draw, drawn_table};
use std::test::Fail;

#[test]
fn a_number_is_drawn(rt: HostRuntime) {
    assert_eq!(rt; draw(1, 3), (7_806_831_264_735_756_412, 2));
}

#[test]
fn a_table_is_drawn(rt: HostRuntime) -> Result<(), Fail> {
    let (x, table) = drawn_table(rt.alloc(), 1)?;
    assert_eq!(rt; x, 15_502_607_021_589_133_160);
    assert_eq!(rt; table.len(), 1024);
    Ok(())
}
