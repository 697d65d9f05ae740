use crate::{Verdict, judge};
use jsh_sum::value_of;
use jsh_text::NoMemory;
use jsh_tree::Code;
use std::alloc::Global;
use std::process::Abort;
use std::test::Fail;

fn verdict_on(rt: &impl Abort, alloc: Global, source: &str) -> Result<Verdict, NoMemory> {
    assert!(rt; source.len() < 0x1_0000_0000);
    Ok(judge(alloc, source)?.verdict)
}

/// Sources that are sums, and their values.
const SUMS: [(&str, i32); 22] = [
    ("0", 0),
    ("1 + 2", 3),
    ("1+2;", 3),
    ("1 + 2 - 3 + 4", 4),
    ("1 - 2 - 3", -4),
    ("1 /* c */ + 2 // d", 3),
    ("\r\n 10\t-\x0c4", 6),
    // what doesn't fit in 32 bits wraps
    ("2147483647 + 1", -2147483648),
    ("0x7fffffff + 0b1 - 017 + 1_0", 2147483643),
    ("0 - 2147483647 - 2", 2147483647),
    // each base
    ("0x1F", 31),
    ("0b101", 5),
    ("00", 0),
    ("017", 15),
    ("0xffffffff", -1),
    // a minus right before a literal belongs to it
    ("-2147483648", -2147483648),
    ("- /* c */ 2147483648", -2147483648),
    ("-0x80000000", -2147483648),
    ("- 5 + -6", -11),
    ("1 - -1", 2),
    ("-2147483648 - -2147483648", 0),
    ("1 - -2147483648", -2147483647),
];

#[test]
fn sums_are_accepted(rt: HostRuntime) -> Result<(), Fail> {
    for (source, value) in SUMS {
        match verdict_on(&rt, rt.alloc(), source)? {
            Verdict::Accepted(sum) => {
                assert!(rt; value_of(&sum) == value, "the value of {source:?}");
            }
            Verdict::Rejected(_) => return Err(Fail::from(source)),
        }
    }
    Ok(())
}

/// Sources that are rejected, with the code of each diagnostic, and their places.
const REJECTED: [(&str, Code, &[u32]); 42] = [
    ("", Code::NoSnippet, &[0]),
    (" \n", Code::NoSnippet, &[0]),
    (" // c", Code::NoSnippet, &[0]),
    ("/* c */", Code::NoSnippet, &[0]),
    // faults of the lexis come first
    ("#", Code::BadToken, &[0]),
    ("1 + \"ab", Code::BadToken, &[4]),
    ("1 + 1.5", Code::BadToken, &[4]),
    ("1 + 08", Code::BadToken, &[4]),
    (") x #", Code::BadToken, &[4]),
    ("9999999999", Code::NumberTooBig, &[0]),
    ("1 + 2147483649", Code::NumberTooBig, &[4]),
    ("-0x100000000", Code::NumberTooBig, &[1]),
    // no snippet: where the tokens stop being a prefix, or at the end
    ("1 +", Code::Unexpected, &[3]),
    ("1 + // c", Code::Unexpected, &[8]),
    (") x", Code::Unexpected, &[0]),
    ("1 2", Code::Unexpected, &[2]),
    ("1; 2", Code::Unexpected, &[3]),
    ("(1", Code::Unexpected, &[2]),
    ("1 + ) 2", Code::Unexpected, &[4]),
    ("class A {};", Code::Unexpected, &[10]),
    // `--` changes a variable, and `5` may begin one, as in `5 .x`
    ("--5", Code::Unexpected, &[3]),
    ("--5;", Code::Unexpected, &[3]),
    // a literal that stands only behind a minus, and doesn't
    ("2147483648", Code::NumberTooBig, &[0]),
    ("2_147_483_648;", Code::NumberTooBig, &[0]),
    ("1 - 2147483648", Code::NumberTooBig, &[4]),
    ("2147483648 + 2147483648", Code::NumberTooBig, &[0, 13]),
    (
        "2147483648 - -2147483648 + 2147483648",
        Code::NumberTooBig,
        &[0, 27],
    ),
    // snippets that aren't sums
    ("(1)", Code::NotYet, &[0]),
    ("-(5)", Code::NotYet, &[0]),
    ("- -5", Code::NotYet, &[0]),
    ("+1", Code::NotYet, &[0]),
    ("~1", Code::NotYet, &[0]),
    ("1 * 2", Code::NotYet, &[0]),
    ("1 + 2 * 3", Code::NotYet, &[0]),
    ("1 + x", Code::NotYet, &[0]),
    ("1 == 1", Code::NotYet, &[0]),
    ("2147483648 * 2", Code::NotYet, &[0]),
    ("1L", Code::NotYet, &[0]),
    ("'a'", Code::NotYet, &[0]),
    ("x", Code::NotYet, &[0]),
    ("int x = 1;", Code::NotYet, &[0]),
    (";", Code::NotYet, &[0]),
];

#[test]
fn other_sources_are_rejected(rt: HostRuntime) -> Result<(), Fail> {
    for (source, code, places) in REJECTED {
        check_rejected(&rt, rt.alloc(), source, &code, places)?;
    }
    Ok(())
}

/// Whether a source is rejected with this code at these places.
fn check_rejected(
    rt: &impl Abort,
    alloc: Global,
    source: &str,
    code: &Code,
    places: &[u32],
) -> Result<(), Fail> {
    let Verdict::Rejected(diagnostics) = verdict_on(rt, alloc, source)? else {
        return Err(Fail::from("a rejection"));
    };
    assert_eq!(rt;
        diagnostics.len(),
        places.len(),
        "diagnostics of {source:?}"
    );
    for (diagnostic, place) in diagnostics.as_slice().iter().zip(places) {
        assert!(rt; diagnostic.code == *code, "the code of {source:?}");
        assert!(rt; diagnostic.place == *place, "the place of {source:?}");
        assert!(rt; diagnostic.name.is_none(), "the name of {source:?}");
    }
    Ok(())
}

/// `1` in so many pairs of parentheses.
fn parenthesized(alloc: Global, pairs: usize) -> Result<String, NoMemory> {
    let mut source = String::new(alloc);
    for _pair in 0..pairs {
        source.push('(')?;
    }
    source.push('1')?;
    for _pair in 0..pairs {
        source.push(')')?;
    }
    Ok(source)
}

#[test]
fn depth_is_limited(rt: HostRuntime) -> Result<(), Fail> {
    let within = parenthesized(rt.alloc(), 256)?;
    check_rejected(&rt, rt.alloc(), &within, &Code::NotYet, &[0])?;
    let beyond = parenthesized(rt.alloc(), 257)?;
    check_rejected(&rt, rt.alloc(), &beyond, &Code::TooDeep, &[0])
}
