//! The commands of a table.

use cap_table::DeviceCaps;
use ff_headers::Limits;
use ntuple_compile::compile;
use ntuple_text::read_table;
use std::test::Fail;

#[test]
fn a_table_of_one_spec_is_compiled(rt: HostRuntime) -> Result<(), Fail> {
    let limits = Limits {
        groups: 1,
        classifiers: 1,
        rules: 1,
        per_group: 1,
        last_priority: 0,
        selectors: 1,
    };
    let caps = DeviceCaps::with_all_selectors(4, limits);
    let table = read_table(rt.alloc(), b"flow-type ip4 action 0", 4)?;
    assert_eq!(rt; compile(rt.alloc(), &table, &caps)?.len(), 3);
    Ok(())
}
