//! Expressions, and the shapes of their trees.

use crate::expression_shape::expression;
use crate::readers::{expression_of, snippet_of};
use crate::spellings::joined;
use jsh_parse::ParseError;
use jsh_tree::{Expr, Tree};
use std::alloc::{AllocError, Global};
use std::test::Fail;

/// A shape has parentheses about every operation and path, and `<` and `>` in place of the text's own
/// parentheses.
const SHAPES: [(&str, &str); 111] = [
    // each level against the next one, on both sides
    ("a || b && c", "(a || (b && c))"),
    ("a && b || c", "((a && b) || c)"),
    ("a && b | c", "(a && (b | c))"),
    ("a | b && c", "((a | b) && c)"),
    ("a | b ^ c", "(a | (b ^ c))"),
    ("a ^ b | c", "((a ^ b) | c)"),
    ("a ^ b & c", "(a ^ (b & c))"),
    ("a & b ^ c", "((a & b) ^ c)"),
    ("a & b == c", "(a & (b == c))"),
    ("a == b & c", "((a == b) & c)"),
    ("a != b < c", "(a != (b < c))"),
    ("a < b == c", "((a < b) == c)"),
    ("a <= b << c", "(a <= (b << c))"),
    ("a >> b > c", "((a >> b) > c)"),
    ("a >>> b + c", "(a >>> (b + c))"),
    ("a - b << c", "((a - b) << c)"),
    ("a + b * c", "(a + (b * c))"),
    ("a * b + c", "((a * b) + c)"),
    ("a / -b", "(a / (- b))"),
    ("-a % b", "((- a) % b)"),
    ("a || b ? c : d", "((a || b) ? c : d)"),
    ("a = b || c", "(a = (b || c))"),
    ("a < b + c << d * e", "(a < ((b + c) << (d * e)))"),
    // a run of one level, from the left
    ("a - b - c", "(a - b - c)"),
    ("a - b + c - d", "(a - b + c - d)"),
    ("a * b / c % d", "(a * b / c % d)"),
    ("a << b >> c >>> d", "(a << b >> c >>> d)"),
    ("a < b > c <= d >= e", "(a < b > c <= d >= e)"),
    ("a == b != c", "(a == b != c)"),
    ("a && b && c", "(a && b && c)"),
    ("a || b || c", "(a || b || c)"),
    ("a - (b - c)", "(a - <(b - c)>)"),
    ("x instanceof A", "(x instanceof A)"),
    ("x instanceof A[]", "(x instanceof A[])"),
    ("x instanceof int[][] == b", "((x instanceof int[][]) == b)"),
    ("a < b instanceof A > c", "(a < b instanceof A > c)"),
    ("a + b instanceof A && c", "(((a + b) instanceof A) && c)"),
    // assignments, to the right
    ("a = b", "(a = b)"),
    ("a = b = c", "(a = (b = c))"),
    ("a += b -= c", "(a += (b -= c))"),
    ("a.b *= c[d] /= e", "((a .b) *= ((c [d]) /= e))"),
    ("a &= b |= c ^= d %= e", "(a &= (b |= (c ^= (d %= e))))"),
    ("a <<= b >>= c >>>= d", "(a <<= (b >>= (c >>>= d)))"),
    ("a = b ? c : d", "(a = (b ? c : d))"),
    ("f().a = 1", "((f() .a) = 1)"),
    ("this.x = super.f(y)", "((this .x) = super.f(y))"),
    // conditionals
    ("a ? b : c", "(a ? b : c)"),
    ("a ? b : c ? d : e", "(a ? b : (c ? d : e))"),
    ("a ? b ? c : d : e", "(a ? (b ? c : d) : e)"),
    ("a ? b = c : d", "(a ? (b = c) : d)"),
    ("a + b ? c : d + e", "((a + b) ? c : (d + e))"),
    // operators of one operand
    ("-a", "(- a)"),
    ("- -a", "(- (- a))"),
    ("+~a", "(+ (~ a))"),
    ("!a && b", "((! a) && b)"),
    ("++a", "(++ a)"),
    ("--a.b", "(-- (a .b))"),
    ("a++", "(a ++)"),
    ("a[i]--", "((a [i]) --)"),
    ("i++ + ++i", "((i ++) + (++ i))"),
    ("i+++j", "((i ++) + j)"),
    ("-a++", "(- (a ++))"),
    ("- ++a", "(- (++ a))"),
    ("-2147483648", "(- -2147483648!)"),
    // casts, and parenthesized names
    ("(a) + b", "(<a> + b)"),
    ("(a) - b", "(<a> - b)"),
    ("(a) b", "((a) b)"),
    ("(a)(b)", "((a) <b>)"),
    ("(a) b.c", "((a) (b .c))"),
    ("(a) b + c", "(((a) b) + c)"),
    ("(int) -b", "((int) (- b))"),
    ("(int) +b", "((int) (+ b))"),
    ("(int) ++b", "((int) (++ b))"),
    ("(a[]) b", "((a[]) b)"),
    ("(int[][]) b", "((int[][]) b)"),
    ("(a) !b", "((a) (! b))"),
    ("(a) ~b", "((a) (~ b))"),
    ("(a) (b) c", "((a) ((b) c))"),
    ("(a) 1", "((a) 1)"),
    ("(a) \"s\"", "((a) \"s\")"),
    ("(a) this", "((a) this)"),
    ("(a) super.f()", "((a) super.f())"),
    ("(a) new A()", "((a) new A())"),
    ("(long) 'x' * 2", "(((long) 'x') * 2)"),
    ("(a).b", "(<a> .b)"),
    ("(a)", "<a>"),
    ("((a))", "<<a>>"),
    ("(a[0]) + b", "(<(a [0])> + b)"),
    // members, indices and calls
    ("a.b", "(a .b)"),
    ("a.b.c(d)[e]++", "((a .b .c(d) [e]) ++)"),
    ("f()", "f()"),
    ("f(a, b + c, d = e)", "f(a, (b + c), (d = e))"),
    ("f(g(a), h())", "f(g(a), h())"),
    ("a[i][j]", "(a [i] [j])"),
    ("a[b = c]", "(a [(b = c)])"),
    ("\"s\".length()", "(\"s\" .length())"),
    ("(a + b).c()", "(<(a + b)> .c())"),
    ("this", "this"),
    ("super.f(a).b", "(super.f(a) .b)"),
    // new objects and arrays
    ("new A()", "new A()"),
    ("new A(b).c", "(new A(b) .c)"),
    ("new int[3]", "new int[] of [3]"),
    ("new int[3][][]", "new int[][][] of [3]"),
    ("new A[n][m + 1][]", "new A[][][] of [n][(m + 1)]"),
    ("new int[2][3].length", "(new int[][] of [2][3] .length)"),
    ("new int[] {1, {2}}", "new int[] {1, {2}}"),
    ("new int[] {}", "new int[] {}"),
    (
        "new int[][] {{1, 2}, {}, a,}",
        "new int[][] {{1, 2}, {}, a}",
    ),
    ("new int[] {1}[0]", "(new int[] {1} [0])"),
    // literals
    ("true == false", "(true == false)"),
    ("null", "null"),
];

#[test]
fn expressions_have_their_trees(rt: HostRuntime) -> Result<(), Fail> {
    for (text, expected) in &SHAPES {
        let Ok(tree) = expression_of(&rt, rt.alloc(), text) else {
            return Err(Fail::from("a text is refused"));
        };
        let mut shape = String::new(rt.alloc());
        expression(&mut shape, &tree)?;
        assert_eq!(rt; shape.as_str(), *expected, "the tree of {text:?}");
    }
    Ok(())
}

/// The text with so many parentheses about `1`.
fn nested(alloc: Global, depth: u32) -> Result<String, AllocError> {
    let mut text = String::new(alloc);
    for _ in 0..depth {
        text.push_str("(")?;
    }
    text.push_str("1")?;
    for _ in 0..depth {
        text.push_str(")")?;
    }
    Ok(text)
}

#[test]
fn at_most_256_parentheses_stand_in_one_another(rt: HostRuntime) -> Result<(), Fail> {
    let deepest = nested(rt.alloc(), 256)?;
    let too_deep = nested(rt.alloc(), 257)?;
    assert!(rt; expression_of(&rt, rt.alloc(), deepest.as_str()).is_ok());
    match expression_of(&rt, rt.alloc(), too_deep.as_str()) {
        Ok(_) => assert!(rt; false, "a tree"),
        Err(error) => assert_eq!(rt; error, ParseError::TooDeep { limit: 256 }),
    }
    Ok(())
}

/// Of a text that goes wrong and too deep, the refusal tells what comes first.
#[test]
fn the_place_in_front_is_told(rt: HostRuntime) -> Result<(), Fail> {
    let too_deep = nested(rt.alloc(), 257)?;
    let broken_before = joined(rt.alloc(), "* ", too_deep.as_str())?;
    match expression_of(&rt, rt.alloc(), broken_before.as_str()) {
        Ok(_) => assert!(rt; false, "a tree"),
        Err(error) => {
            assert!(rt;
                matches!(
                    &error,
                    ParseError::Wanted {
                        place: 0,
                        wanted: Some(_)
                    }
                )
            );
        }
    }
    let broken_behind = joined(rt.alloc(), too_deep.as_str(), " b")?;
    match expression_of(&rt, rt.alloc(), broken_behind.as_str()) {
        Ok(_) => assert!(rt; false, "a tree"),
        Err(error) => assert_eq!(rt; error, ParseError::TooDeep { limit: 256 }),
    }
    let deepest = nested(rt.alloc(), 256)?;
    let one_more = joined(rt.alloc(), deepest.as_str(), ")")?;
    match expression_of(&rt, rt.alloc(), one_more.as_str()) {
        Ok(_) => assert!(rt; false, "a tree"),
        Err(error) => {
            assert!(rt;
                matches!(
                    &error,
                    ParseError::Wanted {
                        place: 513,
                        wanted: Some(_)
                    }
                )
            );
        }
    }
    Ok(())
}

#[test]
fn a_long_run_is_one_node(rt: HostRuntime) -> Result<(), Fail> {
    let mut text = String::from_str(rt.alloc(), "1")?;
    for _ in 0..32767 {
        text.push_str("+1")?;
    }
    let tree = match snippet_of(&rt, rt.alloc(), text.as_str()) {
        Ok(tree) => tree,
        Err(error) => return Err(Fail::from("a text is refused")),
    };
    match &tree {
        Tree::Expression(Expr::Binary { rest, .. }) => assert_eq!(rt; rest.len(), 32767),
        _ => assert!(rt; false, "no run"),
    }
    Ok(())
}
