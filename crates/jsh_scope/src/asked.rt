//! Asking an environment, with a list of what was asked.

ghost use Rattle.std.specs.Prelude.{◌≡◌, [], ◌∷◌, ◌++◌, IfOk, OnOk, OnErr};
ghost use Rattle.jsh_tree.specs.declared.library.Query.TheVariants as query;
ghost use Rattle.jsh_scope.specs.Answers as spec;

use crate::answers::{MethodAnswer, TypeAnswer, VarAnswer};
use crate::env::Env;
use jsh_text::NoMemory;
use jsh_tree::{Diagnostic, Name, Query, Seq};
use std::alloc::Global;
use std::marker::Model;

/// The queries that were asked, in order, those without an answer among them.
pub type Footprint = Seq<Query>;

/// Why a snippet has no typed tree.
#[derive(Debug, Drop)]
pub enum AttrError {
    NoMemory,
    Errors(Seq<Diagnostic>, Footprint),
}

impl From<NoMemory> for AttrError {
    ghost use Rattle.std.specs.Prelude.{◌≡◌};
    ghost use Rattle.jsh_scope.specs.declared.asked.AttrError.TheVariants as errors;

    ghost from_gives = { λ refused error. error ≡ errors.NoMemory };

    fn from(_refused: NoMemory) -> AttrError {
        AttrError::NoMemory
    }
}

/// An environment with the queries that it was asked so far.
#[derive(Drop)]
pub struct Asked<'a> {
    env: &'a Env,
    asked: Vec<Query>,
}

impl<'a> Model for Asked<'a> {
    ghost use Rattle.jsh_scope.specs.Asking.{Asking};

    ghost Value = { Asking };

    ghost view = { λ asking. record { scope = asking.env.now; asked = asking.asked.items } };
}

impl<'a> Asked<'a> {
    pub fn new(alloc: Global, env: &'a Env) -> Asked<'a>
        ensures { result ≡ record { scope = env.now; asked = [] } }
    {
        Asked {
            env,
            asked: Vec::new(alloc),
        }
    }

    pub fn type_named(&mut self, name: &Name) -> Result<Option<TypeAnswer<'a>>, NoMemory>
        ensures answer { IfOk result (λ answer. answer ≡ spec.type_named self.old.scope name.now) }
        ensures asked { OnOk result (self.new ≡ record self.old { asked = self.old.asked ++ query.TypeNamed name.now ∷ [] }) }
        ensures err { OnErr result (self.new ≡ self.old) }
    {
        self.asked.push(Query::TypeNamed(name.clone()?))?;
        Ok(self.env.type_named(name))
    }

    pub fn var_named(&mut self, name: &Name) -> Result<Option<VarAnswer<'a>>, NoMemory>
        ensures answer { IfOk result (λ answer. answer ≡ spec.var_named self.old.scope name.now) }
        ensures asked { OnOk result (self.new ≡ record self.old { asked = self.old.asked ++ query.VarNamed name.now ∷ [] }) }
        ensures err { OnErr result (self.new ≡ self.old) }
    {
        self.asked.push(Query::VarNamed(name.clone()?))?;
        Ok(self.env.var_named(name))
    }

    pub fn methods_named(
        &mut self,
        alloc: Global,
        name: &Name,
    ) -> Result<Vec<MethodAnswer<'a>>, NoMemory>
        ensures answer { IfOk result (λ answers. answers.items ≡ spec.methods_named self.old.scope name.now) }
        ensures asked { OnOk result (self.new ≡ record self.old { asked = self.old.asked ++ query.MethodsNamed name.now ∷ [] }) }
        ensures err { OnErr result (self.new ≡ self.old) }
    {
        let answers = self.env.methods_named(alloc, name)?;
        self.asked.push(Query::MethodsNamed(name.clone()?))?;
        Ok(answers)
    }

    pub fn into_footprint(self) -> Footprint
        ensures { result ≡ self.entry.asked }
    {
        let Asked { env: _, asked } = self;
        Seq::from_vec(asked)
    }
}
