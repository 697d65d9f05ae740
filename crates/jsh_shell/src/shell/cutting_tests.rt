// How inputs are cut into commands, over streams in memory: what stands in the journal for each of them, and what is written.
ghost use Rattle.std.specs.Prelude.{◌≡◌, ◌<◌};

use super::*;
use jsh_io::{MemoryDesk, MemorySink, MemorySource, OpenGate};
use jsh_snippet::{Act, Entry, Question};
use std::alloc::AllocError;
use std::process::Abort;
use std::test::Fail;

/// An input, the client's acts that hand in a text, and what is written. `E<..>` is a snippet to evaluate, and `I<..>` a line that no
/// command is.
type Row = (&'static [u8], &'static str, &'static str);

/// Snippets of one line and of several.
const SNIPPETS: [Row; 12] = [
    (b"", "", ""),
    (b"// only a comment", "", ""),
    (b"\n \t\x0c\n/* a\nb */ // c\n", "", ""),
    (
        b"2147483647 + 1\n-2147483648\n2147483648\n",
        "E<2147483647 + 1>E<-2147483648>E<2147483648>",
        "$1 ==> -2147483648\n$2 ==> -2147483648\n|  Error at 1:1: number too big\n",
    ),
    (
        b"1 +\n  2 -\n\n  3 // three\n  + 4",
        "E<1 +\n  2 -\n\n  3>E<+ 4>",
        "$1 ==> 0\n|  Error at 1:1: not built yet\n",
    ),
    (
        b"1 +\n2 +\n3 +\n4 +\n5\n",
        "E<1 +\n2 +\n3 +\n4 +\n5>",
        "$1 ==> 15\n",
    ),
    (
        b"int f() {\n  int a = 1;\n\n  return a;\n}\n1\n",
        "E<int f() {\n  int a = 1;\n\n  return a;\n}>E<1>",
        "|  Error at 1:1: not built yet\n$2 ==> 1\n",
    ),
    (
        b"1; 2;3 -4\n",
        "E<1;>E<2;>E<3 -4>",
        "$1 ==> 1\n$2 ==> 2\n$3 ==> -1\n",
    ),
    (b"1 +\n2", "E<1 +\n2>", "$1 ==> 3\n"),
    (
        b"1; 2 +\n3; 4\n",
        "E<1;>E<2 +\n3;>E<4>",
        "$1 ==> 1\n$2 ==> 5\n$3 ==> 4\n",
    ),
    (
        b")\n1\n",
        "E<)>E<1>",
        "|  Error at 1:1: unexpected text\n$2 ==> 1\n",
    ),
    (
        b"1 + # 2\n3\n4; # 5\n{\n1;\n",
        "E<1 + # 2>E<3>E<4;>E<# 5>E<{\n1;>",
        "|  Error at 1:5: bad token\n$2 ==> 3\n$3 ==> 4\n|  Error at 1:1: bad token\n|  Error at 2:2: unexpected text\n",
    ),
];

/// Slash lines, and snippets that an `else` may follow.
const SLASH_LINES: [Row; 9] = [
    (
        b"/lost\n1 +\n/lost\n2\n",
        "I</lost>E<1 +\n/lost>E<2>",
        "|  Invalid command: /lost\n|  Error at 2:1: unexpected text\n$2 ==> 2\n",
    ),
    (
        b" \t/drip  x \n/?x\n/ 1\n//c\n/*c*/ /x\n",
        "I</drip  x>I</?x>E</ 1>E</x>",
        "|  Invalid command: /drip  x\n|  Invalid command: /?x\n|  Error at 1:1: unexpected text\n|  Error at 1:1: unexpected text\n",
    ),
    (b"1\n/exit\n2\n", "E<1>", "$1 ==> 1\n"),
    (b" /exit \r\n2\n", "", ""),
    (
        b"1 +\n/exit\n/exit",
        "E<1 +\n/exit>",
        "|  Error at 2:1: unexpected text\n",
    ),
    (
        b"if (true) ;\n\n1\n",
        "E<if (true) ;>E<1>",
        "|  Error at 1:1: not built yet\n$2 ==> 1\n",
    ),
    (
        b"if (true) ;\n/var\n",
        "E<if (true) ;>I</var>",
        "|  Error at 1:1: not built yet\n|  Invalid command: /var\n",
    ),
    (
        b"if (true) ;",
        "E<if (true) ;>",
        "|  Error at 1:1: not built yet\n",
    ),
    (
        b"if (true) ;\nelse\n;\n/exit\n1",
        "E<if (true) ;\nelse\n;>",
        "|  Error at 1:1: not built yet\n",
    ),
];

/// Inputs that end inside something, and bytes that aren't UTF-8.
const ENDS: [Row; 10] = [
    (
        b"1 + /* 2\n3\n",
        "E<1 + /* 2\n3>",
        "|  Error at 1:5: bad token\n",
    ),
    (b"\"abc", "E<\"abc>", "|  Error at 1:1: bad token\n"),
    (
        b"{ f();\n\n",
        "E<{ f();>",
        "|  Error at 1:7: unexpected text\n",
    ),
    (
        b"if (a) b(); else\n",
        "E<if (a) b(); else>",
        "|  Error at 1:1: not built yet\n",
    ),
    (
        b"1 + \xFF\n",
        "E<1 + \u{FFFD}>",
        "|  Error at 1:5: bad token\n",
    ),
    (
        b"\"\xC0\x80\"\n",
        "E<\"\u{FFFD}\u{FFFD}\">",
        "|  Error at 1:1: not built yet\n",
    ),
    (
        b"\"a\xE2\x82\"\n",
        "E<\"a\u{FFFD}\u{FFFD}\">",
        "|  Error at 1:1: not built yet\n",
    ),
    (
        b"\xED\xA0\x80 1",
        "E<\u{FFFD}\u{FFFD}\u{FFFD} 1>",
        "|  Error at 1:1: bad token\n",
    ),
    (
        b"/\xE2\x82\n/a\xE2\x82",
        "E</\u{FFFD}\u{FFFD}>I</a\u{FFFD}\u{FFFD}>",
        "|  Error at 1:2: bad token\n|  Invalid command: /a\u{FFFD}\u{FFFD}\n",
    ),
    (
        b"1 +\r\n2\r\n/x \r\nif (a) b();\r\n\r\n3\r\n",
        "E<1 +\r\n2>I</x>E<if (a) b();>E<3>",
        "$1 ==> 3\n|  Invalid command: /x\n|  Error at 1:1: not built yet\n$3 ==> 3\n",
    ),
];

fn tell(told: &mut String, mark: &str, text: &str) -> Result<(), AllocError> {
    told.push_str(mark)?;
    told.push_str(text)?;
    told.push_str(">")
}

/// The texts that the first client handed in.
fn told(alloc: Global, journal: &[Entry]) -> Result<String, AllocError> {
    let mut told = String::new(alloc);
    for entry in journal {
        if entry.client == 1 {
            match &entry.act {
                Act::Submit { source } => tell(&mut told, "E<", source.as_str())?,
                Act::Ask {
                    question: Question::Invalid(line),
                } => tell(&mut told, "I<", line.as_str())?,
                _ => {}
            }
        }
    }
    Ok(told)
}

/// A desk over this input, of which so many bytes are read at a time.
fn desk(alloc: Global, input: &[u8], read: usize) -> Result<MemoryDesk, AllocError>
    requires { 0 < read }
{
    let source = MemorySource::new(input.to_vec(alloc)?, read, Vec::new(alloc));
    let sink = MemorySink::new(Vec::new(alloc), 4096, Vec::new(alloc), Vec::new(alloc));
    Ok(MemoryDesk::new(alloc, source, sink, Vec::new(alloc)))
}

/// Whether the only client has this status and handed in these texts, and its sink holds this.
fn has_client(
    alloc: Global,
    report: &Report<MemorySource, MemorySink>,
    status: u8,
    acts: &str,
    written: &str,
) -> Result<bool, AllocError> {
    match report.clients.as_slice() {
        [client] => Ok(
            client.status == status
                && told(alloc, report.journal.as_slice())?.as_str() == acts
                && client.sink.bytes() == written.as_bytes(),
        ),
        _ => Ok(false),
    }
}

fn check<R: Threads + Wait + Sync + Abort>(
    rt: &R,
    alloc: Global,
    rows: &[Row],
) -> Result<(), Fail> {
    for (input, acts, written) in rows {
        for read in [4096, 1] {
            assert!(rt; read > 0);
            let mut desk = desk(alloc, input, read)?;
            let report = run(rt, alloc, &[], &mut desk, &OpenGate);
            assert_eq!(rt; report.status, 0, "{}", acts);
            assert!(rt; has_client(alloc, &report, 0, acts, written)?, "{}", acts);
        }
    }
    Ok(())
}

#[test]
fn cuts_snippets(rt: HostRuntime) -> Result<(), Fail> {
    check(&rt, rt.alloc(), &SNIPPETS)
}

#[test]
fn cuts_slash_lines(rt: HostRuntime) -> Result<(), Fail> {
    check(&rt, rt.alloc(), &SLASH_LINES)
}

#[test]
fn ends_inside(rt: HostRuntime) -> Result<(), Fail> {
    check(&rt, rt.alloc(), &ENDS)
}

/// A text, and so many times another one behind it.
fn repeated(alloc: Global, first: &str, count: u32, more: &str) -> Result<Vec<u8>, AllocError> {
    let mut input = first.as_bytes().to_vec(alloc)?;
    for _ in 0..count {
        input.extend_from_slice(more.as_bytes())?;
    }
    Ok(input)
}

#[test]
fn takes_long_sources(rt: HostRuntime) -> Result<(), Fail> {
    let rows = [
        ("1", 32_767, "+1", 0, "$1 ==> 32768\n"),
        ("", 65_536, "x", 0, "|  Error at 1:1: not built yet\n"),
        ("", 65_537, "x", 6, ""),
        // a text that waits is handed in where it is too long
        (
            "(",
            65_535,
            "x",
            0,
            "|  Error at 1:65537: unexpected text\n",
        ),
        ("(", 65_536, "x", 6, ""),
        ("/", 65_536, "x", 6, ""),
        // a text that goes on over many lines
        ("1", 4_000, "+\n1", 0, "$1 ==> 4001\n"),
        (
            "{",
            4_000,
            "\n;",
            0,
            "|  Error at 4001:2: unexpected text\n",
        ),
    ];
    for (first, count, more, status, written) in rows {
        let input = repeated(rt.alloc(), first, count, more)?;
        let mut desk = desk(rt.alloc(), input.as_slice(), 4096)?;
        let report = run(&rt, rt.alloc(), &[], &mut desk, &OpenGate);
        assert_eq!(rt; report.status, status, "{}", first);
        assert_eq!(rt; report.clients.len(), 1);
        assert!(rt;
            report.clients[0]
                .sink
                .bytes()
                .starts_with(written.as_bytes()),
            "{}",
            first
        );
    }
    Ok(())
}
