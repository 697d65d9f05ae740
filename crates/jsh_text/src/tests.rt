// Expected values are from the ranges of the JLS, from Java's documentation of `parseInt`, and from RFC 2781 and RFC 3629.
use crate::{
    KindName, NotNumber, UText, Value, parse_int, parse_long, print_int, print_long,
    print_unsigned, push_unsigned,
};
use std::test::Fail;

#[test]
fn reads_int(rt: HostRuntime) -> Result<(), Fail> {
    let rows = [
        ("-2147483648", Some(i32::MIN)),
        ("-2147483649", None),
        ("2147483647", Some(i32::MAX)),
        ("2147483648", None),
        ("+7", Some(7)),
        ("-0", Some(0)),
        ("00012", Some(12)),
        ("", None),
        ("+", None),
        ("-", None),
        ("--1", None),
        ("+-1", None),
        ("1 ", None),
        (" 1", None),
        ("1_000", None),
        ("0x10", None),
        ("\u{0661}", None),
        ("\u{FF11}", None),
    ];
    for (text, want) in rows {
        let read = parse_int(&UText::from_str(rt.alloc(), text)?);
        assert_eq!(rt; read, want.ok_or(NotNumber), "{text}");
    }
    Ok(())
}

#[test]
fn reads_long(rt: HostRuntime) -> Result<(), Fail> {
    let rows = [
        ("-9223372036854775808", Some(i64::MIN)),
        ("-9223372036854775809", None),
        ("9223372036854775807", Some(i64::MAX)),
        ("9223372036854775808", None),
        ("18446744073709551616", None),
        ("-99999999999999999999999", None),
        ("+000000000000000000000000042", Some(42)),
    ];
    for (text, want) in rows {
        let read = parse_long(&UText::from_str(rt.alloc(), text)?);
        assert_eq!(rt; read, want.ok_or(NotNumber), "{text}");
    }
    Ok(())
}

#[test]
fn prints(rt: HostRuntime) -> Result<(), Fail> {
    let alloc = rt.alloc();
    for (number, want) in [
        (-5, "-5"),
        (0, "0"),
        (i32::MIN, "-2147483648"),
        (i32::MAX, "2147483647"),
    ] {
        assert_eq!(rt; print_int(alloc, number)?, UText::from_str(alloc, want)?);
    }
    for (number, want) in [
        (0, "0"),
        (-10, "-10"),
        (i64::MIN, "-9223372036854775808"),
        (i64::MAX, "9223372036854775807"),
    ] {
        assert_eq!(rt; print_long(alloc, number)?, UText::from_str(alloc, want)?);
    }
    let mut count = print_unsigned(alloc, 16384)?;
    push_unsigned(&mut count, u64::MAX)?;
    assert_eq!(rt;
        count,
        UText::from_latin1(alloc, b"1638418446744073709551615")?
    );
    Ok(())
}

#[test]
fn encodes(rt: HostRuntime) -> Result<(), Fail> {
    let alloc = rt.alloc();
    let text = UText::from_str(alloc, "a\u{20AC}\u{12345}")?;
    assert_eq!(rt; text.as_slice(), [0x61, 0x20AC, 0xD808, 0xDF45].as_slice());
    assert_eq!(rt;
        text.to_utf8(alloc)?.as_slice(),
        "a\u{20AC}\u{12345}".as_bytes()
    );

    let broken = UText::from_units(
        alloc,
        &[0xD808, 0x62, 0xDF45, 0xD808, 0xD808, 0xDF45, 0xD808],
    )?;
    assert_eq!(rt;
        broken.to_utf8(alloc)?.as_slice(),
        "?b??\u{12345}?".as_bytes()
    );
    Ok(())
}

#[test]
fn grows(rt: HostRuntime) -> Result<(), Fail> {
    let alloc = rt.alloc();
    let mut text = UText::new(alloc);
    assert!(rt; text.is_empty());
    text.push(0x61)?;
    text.push_units(&[0x62, 0x63])?;
    text.push_str("\u{20AC}")?;
    text.push_latin1(b"d")?;
    let copy = text.copy()?;
    text.append(&copy)?;
    assert_eq!(rt; text.len(), 10);
    assert_eq!(rt; text, UText::from_str(alloc, "abc\u{20AC}dabc\u{20AC}d")?);
    assert_ne!(rt; text, UText::from_vec([0x61].to_vec(alloc)?));
    Ok(())
}

#[test]
fn names_kinds(rt: HostRuntime) -> Result<(), Fail> {
    let alloc = rt.alloc();
    let rows = [
        (Value::Int(-1), KindName::Int, "int"),
        (Value::Long(-1), KindName::Long, "long"),
        (Value::Char(0xD800), KindName::Char, "char"),
        (Value::Boolean(true), KindName::Boolean, "boolean"),
        (Value::Text(UText::new(alloc)), KindName::Text, "text"),
        (Value::Ref(1), KindName::Ref, "ref"),
        (Value::Null, KindName::Null, "null"),
    ];
    for (value, kind, name) in rows {
        assert_eq!(rt; value.kind(), kind);
        assert_eq!(rt; value.copy()?, value);
        assert_eq!(rt; format!(in alloc; "{kind}")?.as_str(), name);
    }
    Ok(())
}
