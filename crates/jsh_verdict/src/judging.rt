//! The verdict on a source.

ghost use Rattle.std.specs.Prelude.{◌≡◌, ◌<◌, ◌^◌, ◌∷◌, [], length, map, IfOk, None, Some};
ghost use Rattle.jsh_tree.specs.declared.diagnostic.Code.TheVariants as code;
ghost use Rattle.jsh_verdict.specs.Verdict.{judged, tree_of, verdict};
ghost use Rattle.jsh_verdict.specs.Diagnostics as spec;
ghost use Rattle.jsh_verdict.specs.declared.verdict.Verdict.TheVariants.{Rejected as rejection};

use crate::verdict::{Judged, Verdict};
use jsh_decl::parse_source;
use jsh_lex::{LexError, LexFault, lex};
use jsh_parse::ParseError;
use jsh_sum::{Reading, sum_of};
use jsh_text::NoMemory;
use jsh_tree::{Code, Diagnostic, Seq, Tree};
use std::alloc::Global;

/// What becomes of a source.
pub fn judge(alloc: Global, source: &str) -> Result<Judged, NoMemory>
    // A place can count its bytes.
    requires { length source.now < 2 ^ 32 }
    ensures tree { IfOk result (λ j. j.tree ≡ tree_of source.now) }
    ensures verdict { IfOk result (λ j. j.verdict ≡ verdict source.now) }
{
    let tokens = match lex(alloc, source) {
        Ok(tokens) => tokens,
        Err(error) => match error {
            LexError::NoMemory => return Err(NoMemory),
            LexError::Fault { kind, place, .. } => {
                return refused(alloc, lexical_code(kind), place);
            }
        },
    };
    if tokens.is_empty() {
        return refused(alloc, Code::NoSnippet, 0);
    }
    match parse_source(alloc, source, &tokens) {
        Ok(tree) => judge_tree(alloc, tree),
        Err(error) => match error {
            ParseError::NoMemory => Err(NoMemory),
            ParseError::Wanted { place, .. } => refused(alloc, Code::Unexpected, place),
            ParseError::TooDeep { .. } => refused(alloc, Code::TooDeep, 0),
        },
    }
}

/// A source that has no tree.
fn refused(alloc: Global, code: Code, place: u32) -> Result<Judged, NoMemory>
    ensures tree { IfOk result (λ j. j.tree ≡ None) }
    ensures verdict { IfOk result (λ j. j.verdict ≡ rejection (spec.diagnostic code place ∷ [])) }
{
    Ok(Judged {
        tree: None,
        verdict: rejected(alloc, code, place)?,
    })
}

/// What becomes of a source that has a tree.
fn judge_tree(alloc: Global, tree: Tree) -> Result<Judged, NoMemory>
    ensures tree { IfOk result (λ j. j.tree ≡ Some tree) }
    ensures verdict { IfOk result (λ j. j.verdict ≡ judged tree) }
{
    let verdict = verdict_of(alloc, &tree)?;
    Ok(Judged {
        tree: Some(tree),
        verdict,
    })
}

/// What becomes of a tree.
fn verdict_of(alloc: Global, tree: &Tree) -> Result<Verdict, NoMemory>
    ensures { IfOk result (λ v. v ≡ judged tree.now) }
{
    let Some(Reading { sum, too_big }) = sum_of(alloc, tree)? else {
        return rejected(alloc, Code::NotYet, 0);
    };
    if too_big.is_empty() {
        return Ok(Verdict::Accepted(sum));
    }
    Ok(Verdict::Rejected(of_literals(alloc, too_big.as_slice())?))
}

/// A diagnostic for each literal that is too big.
fn of_literals(alloc: Global, places: &[u32]) -> Result<Seq<Diagnostic>, NoMemory>
    ensures { IfOk result (λ ds. ds ≡ map (spec.diagnostic code.NumberTooBig) places.now) }
{
    let mut diagnostics = Vec::with_capacity(alloc, places.len())?;
    for place in places {
        diagnostics.push(without_name(Code::NumberTooBig, *place))?;
    }
    Ok(Seq::from_vec(diagnostics))
}

/// A rejection with one diagnostic.
fn rejected(alloc: Global, code: Code, place: u32) -> Result<Verdict, NoMemory>
    ensures { IfOk result (λ v. v ≡ rejection (spec.diagnostic code place ∷ [])) }
{
    let mut diagnostics = Vec::with_capacity(alloc, 1)?;
    diagnostics.push(without_name(code, place))?;
    Ok(Verdict::Rejected(Seq::from_vec(diagnostics)))
}

fn without_name(code: Code, place: u32) -> Diagnostic
    ensures { result ≡ spec.diagnostic code place }
{
    Diagnostic {
        code,
        place,
        name: None,
    }
}

/// What a fault of the lexis is called.
fn lexical_code(fault: LexFault) -> Code
    ensures { result ≡ spec.lexical_code fault }
{
    match fault {
        LexFault::NumberTooBig => Code::NumberTooBig,
        _ => Code::BadToken,
    }
}
