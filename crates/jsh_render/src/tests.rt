// Expected texts are in the form of the `jshell` tool's feedback.
use crate::{render, show};
use jsh_snippet::{
    Act, Collected, Entry, Fate, Kind, LimitKind, Line, Outcome, Question, Refusal, Reply,
    ReplyBody, Subkind, Submitted, Target,
};
use jsh_text::{KindName, NoMemory, UText};
use jsh_tree::{Code, Diagnostic, Name, Seq, SrcText};
use std::alloc::Global;
use std::test::Fail;

fn rendered(alloc: Global, act: Act, body: ReplyBody) -> Result<Vec<u8>, NoMemory> {
    let output = UText::new(alloc);
    render(alloc, &Entry { client: 1, act }, &Reply { output, body })
}

fn rejected(alloc: Global, source: &str, found: Diagnostic) -> Result<Vec<u8>, NoMemory> {
    let source = SrcText::from_text(alloc, source)?;
    let diagnostics = Seq::from_vec(vec![in alloc; found]?);
    rendered(alloc, Act::Submit { source }, submitted(alloc, diagnostics))
}

fn refused(alloc: Global, act: Act, refusal: Refusal) -> Result<Vec<u8>, NoMemory> {
    rendered(alloc, act, ReplyBody::Refused(refusal))
}

fn not_yet(place: u32) -> Diagnostic {
    Diagnostic {
        code: Code::NotYet,
        place,
        name: None,
    }
}

fn submitted(alloc: Global, diagnostics: Seq<Diagnostic>) -> ReplyBody {
    ReplyBody::Submitted(Submitted {
        id: 1,
        kind: Kind::Erroneous,
        subkind: Subkind::Unknown,
        name: UText::new(alloc),
        events: Seq::new(alloc),
        ignored: Seq::new(alloc),
        diagnostics,
        unresolved: Seq::new(alloc),
        run: None,
        value: None,
    })
}

fn over(alloc: Global, name: &str, value: &str) -> Result<ReplyBody, NoMemory> {
    let name = UText::from_str(alloc, name)?;
    let outcome = Outcome::Value(UText::from_str(alloc, value)?);
    Ok(ReplyBody::Collected(Collected::Over {
        id: 1,
        name,
        outcome,
    }))
}

#[test]
fn locates_errors(rt: HostRuntime) -> Result<(), Fail> {
    let alloc = rt.alloc();
    let rows = [
        ("class A {}", 0, "|  Error at 1:1: not built yet\n"),
        ("1 + x", 4, "|  Error at 1:5: not built yet\n"),
        ("1 +\n\u{E9} x", 4, "|  Error at 2:1: not built yet\n"),
        ("1 +\n\u{E9} x", 7, "|  Error at 2:3: not built yet\n"),
        (
            "\n\u{20AC}\u{12345}\n",
            8,
            "|  Error at 2:3: not built yet\n",
        ),
        (
            "\n\u{20AC}\u{12345}\n",
            9,
            "|  Error at 3:1: not built yet\n",
        ),
    ];
    for (source, place, want) in rows {
        assert_eq!(rt;
            rejected(alloc, source, not_yet(place))?.as_slice(),
            want.as_bytes(),
            "{want}"
        );
    }
    Ok(())
}

/// Each code, with its words for the name `x`.
const WORDS: [(Code, &str); 22] = [
    (Code::NoSnippet, "one snippet is needed"),
    (Code::BadToken, "bad token"),
    (Code::Unexpected, "unexpected text"),
    (Code::TooDeep, "nested too deep"),
    (Code::NumberTooBig, "number too big"),
    (Code::Unresolved, "cannot find x"),
    (Code::NoMember, "no member x"),
    (Code::Mismatch, "wrong type"),
    (Code::BadOperand, "bad operand"),
    (Code::NotApplicable, "no x fits the arguments"),
    (Code::Ambiguous, "call of x is ambiguous"),
    (Code::TextEquality, "texts are compared by equals"),
    (Code::Duplicate, "x is declared twice"),
    (Code::BadModifier, "modifier x not allowed here"),
    (Code::SuperRule { number: 3 }, "super rule S3 is broken"),
    (Code::BadImport, "x cannot be imported"),
    (Code::AbstractNew, "x is abstract"),
    (Code::Misplaced, "not allowed here"),
    (Code::NotAssigned, "x might not be assigned"),
    (Code::Unreachable, "unreachable statement"),
    (Code::MissingReturn, "missing return"),
    (Code::NotYet, "not built yet"),
];

#[test]
fn words_each_code(rt: HostRuntime) -> Result<(), Fail> {
    let alloc = rt.alloc();
    for (code, words) in WORDS {
        let found = Diagnostic {
            code,
            place: 0,
            name: Some(Name::from_text(alloc, "x")?),
        };
        let want = format!(in alloc; "|  Error at 1:1: {words}\n")?;
        assert_eq!(rt;
            rejected(alloc, "x", found)?.as_slice(),
            want.as_bytes(),
            "{words}"
        );
    }
    let nameless = Diagnostic {
        code: Code::Unresolved,
        place: 0,
        name: None,
    };
    let bytes = rejected(alloc, "x", nameless)?;
    assert_eq!(rt;
        bytes.as_slice(),
        b"|  Error at 1:1: cannot find \n".as_slice()
    );
    Ok(())
}

#[test]
fn names_limits(rt: HostRuntime) -> Result<(), Fail> {
    let alloc = rt.alloc();
    let rows = [
        (LimitKind::Source, 65536, "|  limit reached: Source 65536\n"),
        (
            LimitKind::Records,
            16384,
            "|  limit reached: Records 16384\n",
        ),
        (
            LimitKind::History,
            4194304,
            "|  limit reached: History 4194304\n",
        ),
        (
            LimitKind::HistoryBytes,
            67108864,
            "|  limit reached: HistoryBytes 67108864\n",
        ),
        (LimitKind::Clients, 64, "|  limit reached: Clients 64\n"),
        (LimitKind::Threads, 256, "|  limit reached: Threads 256\n"),
    ];
    for (which, count, want) in rows {
        let bytes = refused(alloc, Act::Enter, Refusal::Limit { which, count })?;
        assert_eq!(rt; bytes.as_slice(), want.as_bytes(), "{want}");
    }
    Ok(())
}

#[test]
fn names_runs(rt: HostRuntime) -> Result<(), Fail> {
    let alloc = rt.alloc();
    let unknown = refused(
        alloc,
        Act::Collect { run: 9 },
        Refusal::NoSuchRun { run: 9 },
    )?;
    assert_eq!(rt; unknown.as_slice(), b"|  no run 9\n".as_slice());
    let foreign = refused(
        alloc,
        Act::Expire { run: 1, steps: 7 },
        Refusal::NotOwner { owner: 2 },
    )?;
    assert_eq!(rt;
        foreign.as_slice(),
        b"|  run 1 belongs to client 2\n".as_slice()
    );
    Ok(())
}

#[test]
fn writes_values(rt: HostRuntime) -> Result<(), Fail> {
    let alloc = rt.alloc();
    let rows = [
        ("$1", "3", "$1 ==> 3\n"),
        ("", "3", "3\n"),
        ("\u{E9}", "\"\u{20AC}\"", "\u{E9} ==> \"\u{20AC}\"\n"),
    ];
    for (name, value, want) in rows {
        let bytes = rendered(alloc, Act::Collect { run: 1 }, over(alloc, name, value)?)?;
        assert_eq!(rt; bytes.as_slice(), want.as_bytes(), "{want}");
    }
    Ok(())
}

#[test]
fn names_snippets(rt: HostRuntime) -> Result<(), Fail> {
    let alloc = rt.alloc();
    let target = Target::Id(9);
    let unknown = refused(
        alloc,
        Act::Drop { target },
        Refusal::NoSuchSnippet { id: 9, count: 3 },
    )?;
    assert_eq!(rt; unknown.as_slice(), b"|  no snippet 9\n".as_slice());
    let name = Name::from_text(alloc, "z")?;
    let target = Target::Named(Name::from_text(alloc, "z")?);
    let unnamed = refused(
        alloc,
        Act::Drop { target },
        Refusal::NoSuchName { name, matches: 0 },
    )?;
    assert_eq!(rt;
        unnamed.as_slice(),
        b"|  0 live snippets are named z\n".as_slice()
    );
    Ok(())
}

#[test]
fn names_fates(rt: HostRuntime) -> Result<(), Fail> {
    let rows = [
        (Fate::Dropped, "|  snippet 1 is DROPPED\n"),
        (Fate::Overwritten, "|  snippet 1 is OVERWRITTEN\n"),
        (Fate::Rejected, "|  snippet 1 is REJECTED\n"),
    ];
    for (fate, want) in rows {
        let target = Target::Id(1);
        let bytes = refused(
            rt.alloc(),
            Act::Drop { target },
            Refusal::NotLive { id: 1, fate },
        )?;
        assert_eq!(rt; bytes.as_slice(), want.as_bytes(), "{want}");
    }
    Ok(())
}

/// What a run is asked for gives, at a run with the name `x`.
fn ended(alloc: Global, outcome: Outcome) -> Result<Vec<u8>, NoMemory> {
    let name = UText::from_str(alloc, "x")?;
    let over = Collected::Over {
        id: 1,
        name,
        outcome,
    };
    rendered(alloc, Act::Collect { run: 1 }, ReplyBody::Collected(over))
}

fn thrown(alloc: Global, message: Option<&str>) -> Result<Vec<u8>, NoMemory> {
    let class = UText::from_str(alloc, "java.lang.ArithmeticException")?;
    let message = match message {
        None => None,
        Some(message) => Some(UText::from_str(alloc, message)?),
    };
    ended(alloc, Outcome::Thrown { class, message })
}

fn unresolved(alloc: Global, name: &str, missing: &[&str]) -> Result<Vec<u8>, NoMemory> {
    let mut names = Vec::new(alloc);
    for name in missing {
        names.push(Name::from_text(alloc, name)?)?;
    }
    let name = UText::from_str(alloc, name)?;
    let missing = Seq::from_vec(names);
    ended(
        alloc,
        Outcome::Unresolved {
            id: 1,
            name,
            missing,
        },
    )
}

#[test]
fn tells_exceptions(rt: HostRuntime) -> Result<(), Fail> {
    let alloc = rt.alloc();
    assert_eq!(rt;
        thrown(alloc, Some("/ by zero"))?.as_slice(),
        b"|  Exception java.lang.ArithmeticException: / by zero\n".as_slice()
    );
    assert_eq!(rt;
        thrown(alloc, None)?.as_slice(),
        b"|  Exception java.lang.ArithmeticException\n".as_slice()
    );
    Ok(())
}

/// What was called, the names that are missing, and the line.
const ATTEMPTS: [(&str, &[&str], &str); 5] = [
    (
        "f()",
        &["g"],
        "|  attempted to call f() which cannot be invoked until g is declared\n",
    ),
    (
        "f(int)",
        &["g", "x", "g"],
        "|  attempted to call f(int) which cannot be invoked until g and x are declared\n",
    ),
    (
        "class A",
        &["f", "g", "x"],
        "|  attempted to use class A which cannot be invoked until f, g and x are declared\n",
    ),
    ("f()", &[], "|  attempted to call f() which has errors\n"),
    (
        "class A",
        &[],
        "|  attempted to use class A which has errors\n",
    ),
];

#[test]
fn tells_attempts(rt: HostRuntime) -> Result<(), Fail> {
    for (name, missing, want) in ATTEMPTS {
        let bytes = unresolved(rt.alloc(), name, missing)?;
        assert_eq!(rt; bytes.as_slice(), want.as_bytes(), "{want}");
    }
    Ok(())
}

fn stalled(alloc: Global, numbers: &[u32]) -> Result<Vec<u8>, NoMemory> {
    let threads = Seq::from_vec(Vec::from_slice(alloc, numbers)?);
    ended(alloc, Outcome::Stalled { threads })
}

#[test]
fn tells_ends(rt: HostRuntime) -> Result<(), Fail> {
    let alloc = rt.alloc();
    let stopped = ended(alloc, Outcome::Stopped { by: 2 })?;
    assert_eq!(rt; stopped.as_slice(), b"|  stopped by client 2\n".as_slice());
    let spent = ended(alloc, Outcome::Spent { steps: 1000 })?;
    assert_eq!(rt;
        spent.as_slice(),
        b"|  stopped after 1000 steps\n".as_slice()
    );
    let wanted = KindName::Int;
    let found = KindName::Text;
    let wrong = ended(alloc, Outcome::Wrong { wanted, found })?;
    assert_eq!(rt; wrong.as_slice(), b"|  wrong kind: int, text\n".as_slice());
    assert!(rt; ended(alloc, Outcome::Finished)?.is_empty());
    assert!(rt; ended(alloc, Outcome::NoRun)?.is_empty());
    Ok(())
}

#[test]
fn tells_stalls(rt: HostRuntime) -> Result<(), Fail> {
    let alloc = rt.alloc();
    let two = stalled(alloc, &[3, 4])?;
    assert_eq!(rt; two.as_slice(), b"|  stalled: 3, 4\n".as_slice());
    let one = stalled(alloc, &[7])?;
    assert_eq!(rt; one.as_slice(), b"|  stalled: 7\n".as_slice());
    let three = stalled(alloc, &[1, 2, 13])?;
    assert_eq!(rt; three.as_slice(), b"|  stalled: 1, 2, 13\n".as_slice());
    Ok(())
}

#[test]
fn tells_stops_and_resets(rt: HostRuntime) -> Result<(), Fail> {
    let alloc = rt.alloc();
    let stopped = rendered(alloc, Act::Stop { run: 1 }, ReplyBody::StopDone { run: 1 })?;
    assert_eq!(rt; stopped.as_slice(), b"|  run 1 stopped\n".as_slice());
    let reset = rendered(alloc, Act::Reset, ReplyBody::ResetDone { records: 2 })?;
    assert_eq!(rt; reset.as_slice(), b"|  Resetting state.\n".as_slice());
    Ok(())
}

fn answered(alloc: Global, lines: &[&str]) -> Result<Vec<u8>, NoMemory> {
    let mut answer = Vec::new(alloc);
    for line in lines {
        let text = UText::from_str(alloc, line)?;
        answer.push(Line { text })?;
    }
    let act = Act::Ask {
        question: Question::Help,
    };
    rendered(alloc, act, ReplyBody::Answered(Seq::from_vec(answer)))
}

#[test]
fn writes_lines_of_answers(rt: HostRuntime) -> Result<(), Fail> {
    let alloc = rt.alloc();
    let one = answered(alloc, &["|  Invalid command: /foo"])?;
    assert_eq!(rt; one.as_slice(), b"|  Invalid command: /foo\n".as_slice());
    let two = answered(alloc, &["/\u{12345} \u{E9}", ""])?;
    assert_eq!(rt; two.as_slice(), "/\u{12345} \u{E9}\n\n".as_bytes());
    let none = answered(alloc, &[])?;
    assert!(rt; none.is_empty());
    Ok(())
}

#[test]
fn writes_nothing(rt: HostRuntime) -> Result<(), Fail> {
    let alloc = rt.alloc();
    assert!(rt; rendered(alloc, Act::Leave, ReplyBody::Left)?.is_empty());
    assert!(rt; rendered(alloc, Act::Close, ReplyBody::Closed)?.is_empty());
    assert!(rt; rendered(alloc, Act::Enter, ReplyBody::Entered { number: 1 })?.is_empty());
    let turn = Act::Turn {
        thread: 1,
        steps: 9,
    };
    assert!(rt; rendered(alloc, turn, ReplyBody::Turned { steps: 2 })?.is_empty());
    let running = Collected::Running { steps: 2 };
    let collect = Act::Collect { run: 1 };
    assert!(rt; rendered(alloc, collect, ReplyBody::Collected(running))?.is_empty());
    Ok(())
}

#[test]
fn shows_output_first(rt: HostRuntime) -> Result<(), Fail> {
    let alloc = rt.alloc();
    let act = Act::Collect { run: 1 };
    let reply = Reply {
        output: UText::from_str(alloc, "out\n")?,
        body: over(alloc, "$1", "3")?,
    };
    let bytes = show(alloc, &Entry { client: 1, act }, &reply)?;
    assert_eq!(rt; bytes.as_slice(), b"out\n$1 ==> 3\n".as_slice());
    Ok(())
}
