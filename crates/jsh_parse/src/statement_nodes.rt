//! Trees of statements, of what stands in them.

ghost use Rattle.std.specs.Prelude.{◌≡◌, None, Some, IfOk};
ghost use Rattle.jsh_tree.specs.declared.statement.Stmt.TheVariants as statement;
ghost use Rattle.jsh_tree.specs.declared.statement.BlockStatement.TheVariants as block_statement;
ghost use Rattle.jsh_tree.specs.declared.statement.ForStart.TheVariants as start;
ghost use Rattle.jsh_tree.specs.declared.statement.SwitchGroup.{roll-SwitchGroup};
ghost use Rattle.jsh_tree.specs.declared.statement.CatchClause.{roll-CatchClause};

use crate::heads::{CatchHead, EachHead, ForHead};
use jsh_tree::{
    Block, BlockStatement, Boxed, CatchClause, Expr, ForStart, Seq, Span, Stmt, SwitchGroup,
    SwitchLabel, Variable,
};
use std::alloc::{AllocError, Global};

/// An expression out of its box, where there is one.
fn unboxed(tree: Option<Boxed<Expr>>) -> Option<Expr>
    ensures { result ≡ tree }
{
    match tree {
        Some(tree) => Some(tree.into_inner()),
        None => None,
    }
}

#[inline(never)]
pub fn braced(alloc: Global, block: Block) -> Result<Boxed<Stmt>, AllocError>
    ensures { IfOk result (λ node. node ≡ statement.Block block) }
{
    Boxed::new(alloc, Stmt::Block(block))
}

#[inline(never)]
pub fn alone(alloc: Global, tree: Boxed<Expr>) -> Result<Boxed<Stmt>, AllocError>
    ensures { IfOk result (λ node. node ≡ statement.Expression tree) }
{
    Boxed::new(alloc, Stmt::Expression(tree.into_inner()))
}

#[inline(never)]
pub fn choice(
    alloc: Global,
    span: Span,
    condition: Boxed<Expr>,
    then: Boxed<Stmt>,
    otherwise: Option<Boxed<Stmt>>,
) -> Result<Boxed<Stmt>, AllocError>
    ensures { IfOk result (λ node. node ≡ statement.If span condition then otherwise) }
{
    let condition = condition.into_inner();
    let tree = Stmt::If {
        span,
        condition,
        then,
        otherwise,
    };
    Boxed::new(alloc, tree)
}

#[inline(never)]
pub fn while_loop(
    alloc: Global,
    span: Span,
    condition: Boxed<Expr>,
    body: Boxed<Stmt>,
) -> Result<Boxed<Stmt>, AllocError>
    ensures { IfOk result (λ node. node ≡ statement.While span condition body) }
{
    let condition = condition.into_inner();
    let tree = Stmt::While {
        span,
        condition,
        body,
    };
    Boxed::new(alloc, tree)
}

#[inline(never)]
pub fn do_loop(
    alloc: Global,
    span: Span,
    body: Boxed<Stmt>,
    condition: Boxed<Expr>,
) -> Result<Boxed<Stmt>, AllocError>
    ensures { IfOk result (λ node. node ≡ statement.Do span body condition) }
{
    let condition = condition.into_inner();
    let tree = Stmt::Do {
        span,
        body,
        condition,
    };
    Boxed::new(alloc, tree)
}

#[inline(never)]
pub fn counted(
    alloc: Global,
    span: Span,
    head: Boxed<ForHead>,
    body: Boxed<Stmt>,
) -> Result<Boxed<Stmt>, AllocError>
    ensures { IfOk result (λ node. node ≡ statement.For span head.start head.condition head.update body) }
{
    let ForHead {
        start,
        condition,
        update,
    } = head.into_inner();
    let start = start.into_inner();
    let condition = unboxed(condition);
    let update = unboxed(update);
    let tree = Stmt::For {
        span,
        start,
        condition,
        update,
        body,
    };
    Boxed::new(alloc, tree)
}

#[inline(never)]
pub fn each(
    alloc: Global,
    span: Span,
    head: Boxed<EachHead>,
    body: Boxed<Stmt>,
) -> Result<Boxed<Stmt>, AllocError>
    ensures { IfOk result (λ node. node ≡ statement.ForEach span head.is_final head.written head.name head.array body) }
{
    let EachHead {
        is_final,
        written,
        name,
        array,
    } = head.into_inner();
    let array = array.into_inner();
    let tree = Stmt::ForEach {
        span,
        is_final,
        written,
        name,
        array,
        body,
    };
    Boxed::new(alloc, tree)
}

#[inline(never)]
pub fn selection(
    alloc: Global,
    span: Span,
    selector: Boxed<Expr>,
    groups: Seq<SwitchGroup>,
) -> Result<Boxed<Stmt>, AllocError>
    ensures { IfOk result (λ node. node ≡ statement.Switch span selector groups) }
{
    let selector = selector.into_inner();
    let tree = Stmt::Switch {
        span,
        selector,
        groups,
    };
    Boxed::new(alloc, tree)
}

#[inline(never)]
pub fn returned(
    alloc: Global,
    span: Span,
    value: Option<Boxed<Expr>>,
) -> Result<Boxed<Stmt>, AllocError>
    ensures { IfOk result (λ node. node ≡ statement.Return span value) }
{
    let value = unboxed(value);
    Boxed::new(alloc, Stmt::Return { span, value })
}

#[inline(never)]
pub fn thrown(alloc: Global, span: Span, value: Boxed<Expr>) -> Result<Boxed<Stmt>, AllocError>
    ensures { IfOk result (λ node. node ≡ statement.Throw span value) }
{
    let value = value.into_inner();
    Boxed::new(alloc, Stmt::Throw { span, value })
}

#[inline(never)]
pub fn guarded(
    alloc: Global,
    span: Span,
    block: Block,
    catches: Seq<CatchClause>,
) -> Result<Boxed<Stmt>, AllocError>
    ensures { IfOk result (λ node. node ≡ statement.Try span block catches) }
{
    let tree = Stmt::Try {
        span,
        block,
        catches,
    };
    Boxed::new(alloc, tree)
}

#[inline(never)]
pub fn caught(
    alloc: Global,
    head: Boxed<CatchHead>,
    block: Block,
) -> Result<Boxed<CatchClause>, AllocError>
    ensures { IfOk result (λ node. node ≡ roll-CatchClause (record { is_final = head.is_final; class = head.class; name = head.name; block = block })) }
{
    let CatchHead {
        is_final,
        class,
        name,
    } = head.into_inner();
    let clause = CatchClause {
        is_final,
        class,
        name,
        block,
    };
    Boxed::new(alloc, clause)
}

#[inline(never)]
pub fn grouped(
    alloc: Global,
    labels: Seq<SwitchLabel>,
    statements: Seq<BlockStatement>,
) -> Result<Boxed<SwitchGroup>, AllocError>
    ensures { IfOk result (λ node. node ≡ roll-SwitchGroup (record { labels = labels; statements = statements })) }
{
    Boxed::new(alloc, SwitchGroup { labels, statements })
}

/// A statement of a block.
#[inline(never)]
pub fn inside_block(alloc: Global, tree: Boxed<Stmt>) -> Result<Boxed<BlockStatement>, AllocError>
    ensures { IfOk result (λ node. node ≡ block_statement.Statement tree) }
{
    Boxed::new(alloc, BlockStatement::Statement(tree.into_inner()))
}

/// A variable of a block.
#[inline(never)]
pub fn local_variable(
    alloc: Global,
    span: Span,
    is_final: bool,
    variable: Boxed<Variable>,
) -> Result<Boxed<BlockStatement>, AllocError>
    ensures { IfOk result (λ node. node ≡ block_statement.Local span is_final variable) }
{
    let variable = variable.into_inner();
    let local = BlockStatement::Local {
        span,
        is_final,
        variable,
    };
    Boxed::new(alloc, local)
}

/// A variable that a `for` begins with.
#[inline(never)]
pub fn start_of(
    alloc: Global,
    span: Span,
    is_final: bool,
    variable: Boxed<Variable>,
) -> Result<Boxed<ForStart>, AllocError>
    ensures { IfOk result (λ node. node ≡ start.Local span is_final variable) }
{
    let variable = variable.into_inner();
    let start = ForStart::Local {
        span,
        is_final,
        variable,
    };
    Boxed::new(alloc, start)
}
