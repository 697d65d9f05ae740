use crate::{char_value, int_value, long_value, needs_minus, string_value};
use std::alloc::Global;
use std::test::Fail;

#[test]
fn ints_have_values(rt: HostRuntime) {
    for (spelling, value) in &[
        ("0", Some(0)),
        ("017", Some(15)),
        ("0x1F", Some(31)),
        ("0b101", Some(5)),
        ("1_000", Some(1000)),
        ("2147483647", Some(2_147_483_647)),
        ("2147483648", Some(i32::MIN)),
        ("0xFFFFFFFF", Some(-1)),
        ("2147483649", None),
        ("1L", None),
        ("08", None),
        ("", None),
    ] {
        assert!(rt; int_value(spelling) == *value, "the value of {spelling:?}");
    }
}

#[test]
fn longs_have_values(rt: HostRuntime) {
    for (spelling, value) in &[
        ("1L", Some(1)),
        ("9223372036854775807l", Some(i64::MAX)),
        ("9223372036854775808L", Some(i64::MIN)),
        ("0xffff_ffff_ffff_ffffL", Some(-1)),
        ("9223372036854775809L", None),
        ("1", None),
    ] {
        assert!(rt; long_value(spelling) == *value, "the value of {spelling:?}");
    }
}

#[test]
fn greatest_decimals_need_a_minus(rt: HostRuntime) {
    for (spelling, needs) in &[
        ("2147483648", true),
        ("2_147_483_648", true),
        ("9223372036854775808L", true),
        ("2147483647", false),
        ("2147483648L", false),
        ("0x80000000", false),
    ] {
        assert!(rt; needs_minus(spelling) == *needs, "{spelling:?}");
    }
}

#[test]
fn characters_have_values(rt: HostRuntime) {
    for (spelling, value) in &[
        ("'a'", Some(97)),
        ("'\\377'", Some(255)),
        ("'\\0'", Some(0)),
        ("'\\n'", Some(10)),
        ("'\\s'", Some(32)),
        ("'\\''", Some(39)),
        ("''", None),
        ("'ab'", None),
        ("'\\400'", None),
        ("'\u{1f600}'", None),
        ("a", None),
    ] {
        assert!(rt; char_value(spelling) == *value, "the value of {spelling:?}");
    }
}

fn spells_units(alloc: Global, spelling: &str, units: &[u16]) -> Result<bool, Fail> {
    let value = string_value(alloc, spelling)?;
    Ok(value.is_some_and(|found| found.as_slice() == units))
}

#[test]
fn strings_have_values(rt: HostRuntime) -> Result<(), Fail> {
    let alloc = rt.alloc();
    assert!(rt; spells_units(alloc, "\"\"", &[])?);
    assert!(rt; spells_units(alloc, "\"a\\n\\\"\"", &[97, 10, 34])?);
    assert!(rt; spells_units(alloc, "\"\\1234\\400\\08\"", &[83, 52, 32, 48, 0, 56])?);
    assert!(rt; spells_units(alloc, "\"\u{1f600}\"", &[0xd83d, 0xde00])?);
    assert!(rt; string_value(alloc, "\"\\q\"")?.is_none());
    assert!(rt; string_value(alloc, "\"a\"b\"")?.is_none());
    assert!(rt; string_value(alloc, "'a'")?.is_none());
    Ok(())
}
