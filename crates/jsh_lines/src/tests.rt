// Expected values are from JLS 3.6 and from Unicode, table 3-7.
use crate::{is_blank, line_end, text_of};
use std::test::Fail;

#[test]
fn reads_text(rt: HostRuntime) -> Result<(), Fail> {
    let rows: [(&[u8], &str); 12] = [
        (b"", ""),
        (b"int x = 1;", "int x = 1;"),
        (
            b"\xC3\xA9\xE2\x82\xAC\xF0\x9F\x98\x80",
            "\u{E9}\u{20AC}\u{1F600}",
        ),
        (b"\x80", "\u{FFFD}"),
        (b"a\x80b\xFF", "a\u{FFFD}b\u{FFFD}"),
        (b"\xE2\x82", "\u{FFFD}\u{FFFD}"),
        (b"\xE2\x82\xAC\xE2\x82", "\u{20AC}\u{FFFD}\u{FFFD}"),
        (b"\xC3\x28", "\u{FFFD}("),
        (b"\xF4\x90\x80\x80", "\u{FFFD}\u{FFFD}\u{FFFD}\u{FFFD}"),
        (b"\xC0\xAF", "\u{FFFD}\u{FFFD}"),
        (b"\xED\xA0\x80", "\u{FFFD}\u{FFFD}\u{FFFD}"),
        (b"\xE2\xC3\xA9", "\u{FFFD}\u{E9}"),
    ];
    for (line, want) in rows {
        let text = text_of(rt.alloc(), line)?;
        assert_eq!(rt; text.as_str(), want);
    }
    Ok(())
}

#[test]
fn finds_line_ends(rt: HostRuntime) -> Result<(), Fail> {
    let rows: [(&[u8], Option<usize>); 7] = [
        (b"", None),
        (b"a", None),
        (b"a\r", None),
        (b"a\n", Some(1)),
        (b"a\n\nb", Some(1)),
        (b"a\r\n", Some(2)),
        (b"\n", Some(0)),
    ];
    for (piece, want) in rows {
        assert_eq!(rt; line_end(piece), want);
    }
    Ok(())
}

#[test]
fn knows_blank_lines(rt: HostRuntime) -> Result<(), Fail> {
    let rows: [(&[u8], bool); 7] = [
        (b"", true),
        (b" \t\x0C\r\n", true),
        (b"\r", true),
        (b" 1 ", false),
        (b"\x0B", false),
        (b"\xC2\xA0", false),
        (b"\0", false),
    ];
    for (line, want) in rows {
        assert_eq!(rt; is_blank(line), want);
    }
    Ok(())
}
