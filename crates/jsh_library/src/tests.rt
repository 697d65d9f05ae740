use super::*;
use std::test::Fail;

#[test]
fn the_table_is_made(rt: HostRuntime) -> Result<(), Fail> {
    let library = table(rt.alloc())?;
    assert_eq!(rt; library.packages.len(), 12);
    assert_eq!(rt; library.types.len(), 31);
    assert_eq!(rt; library.out.len(), 13);
    Ok(())
}
