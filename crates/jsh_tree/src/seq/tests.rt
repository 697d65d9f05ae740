ghost use Rattle.std.specs.Prelude.{◌≡◌, IfOk};

use super::*;
use crate::{Boxed, Name, SrcText, TypeWritten};
use std::test::Fail;

/// Leads back to itself through a list and a box, as a tree of the language does.
#[derive(Debug, Drop)]
enum Tree {
    Leaf(Name),
    Both(Boxed<Tree>, Boxed<Tree>),
    Row(Seq<Tree>),
}

fn row(trees: Vec<Tree>) -> Tree
    ensures { result ≡ Tree.Row trees.items }
{
    Tree::Row(Seq::from(trees))
}

fn leaf(name: &Name) -> Result<Tree, AllocError>
    ensures { IfOk result (λ tree. tree ≡ Tree.Leaf name.now) }
{
    Ok(Tree::Leaf(name.clone()?))
}

fn both(alloc: Global, tree: Tree, other: Tree) -> Result<Tree, AllocError>
    ensures { IfOk result (λ both. both ≡ Tree.Both tree other) }
{
    let tree = Boxed::new(alloc, tree)?;
    let other = Boxed::new(alloc, other)?;
    Ok(Tree::Both(tree, other))
}

/// How many leaves a tree has, counted no further than a list in it.
fn leaves(tree: &Tree) -> usize {
    match tree {
        Tree::Leaf(_) => 1,
        Tree::Both(_, _) => 2,
        Tree::Row(trees) => trees.len(),
    }
}

fn takes_send<T: Send>(_: &T) {}

#[test]
fn trees_lead_back_through_lists(rt: HostRuntime) -> Result<(), Fail> {
    let name = Name::from_text(rt.alloc(), "x")?;
    let pair = both(rt.alloc(), leaf(&name)?, leaf(&name)?)?;
    assert_eq!(rt; leaves(&pair), 2);
    let mut trees = Vec::new(rt.alloc());
    trees.push(pair)?;
    let tree = row(trees);
    assert_eq!(rt; leaves(&tree), 1);
    takes_send(&tree);
    Ok(())
}

#[test]
fn lists_are_made_and_read(rt: HostRuntime) -> Result<(), Fail> {
    let empty: Seq<u8> = Seq::new(rt.alloc());
    assert!(rt; empty.is_empty());
    let seq = Seq::from_slice(rt.alloc(), &[1, 2, 3])?;
    assert_eq!(rt; seq.len(), 3);
    assert!(rt; seq.get(2) == Some(&3));
    assert!(rt; seq[1] == 2);
    let copy = seq.clone()?;
    assert!(rt; copy == seq);
    assert!(rt; empty < seq);
    assert!(rt; seq.cmp(&copy).is_eq());
    let mut sum = 0;
    for item in seq.as_slice() {
        sum ^= *item;
    }
    assert_eq!(rt; sum, 0);
    assert_eq!(rt; seq.into_vec().len(), 3);
    Ok(())
}

#[test]
fn texts_are_copied_and_compared(rt: HostRuntime) -> Result<(), Fail> {
    let name = Name::from_text(rt.alloc(), "é")?;
    assert_eq!(rt; name.as_str(), "é");
    assert!(rt; name.clone()? == name);
    assert!(rt; Name::from_text(rt.alloc(), "z")? < name);
    let source = SrcText::from_text(rt.alloc(), "1 + 2")?;
    assert_eq!(rt; source.as_str(), "1 + 2");
    assert!(rt; source.clone()? == source);
    let written = TypeWritten { name, dims: 2 };
    assert!(rt; written.clone()? == written);
    assert!(rt; written.cmp(&written).is_eq());
    Ok(())
}
