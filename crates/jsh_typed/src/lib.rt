//! Types, conversions and typed trees: what attribution writes and evaluation reads.
#![tactic(auto)]

mod conversion;
mod expression;
mod hierarchy;
mod operation;
mod statement;
#[cfg(test)]
mod tests;
mod types;

pub use conversion::{
    BranchType, ComparedAs, assigns, branches, casts, common_number, compared, fits_char,
    may_be_instance, widens,
};
pub use expression::{Expression, LibraryFunction, MethodName, Start, Step, Target, TextMethod};
pub use hierarchy::{HierarchyEntry, is_subclass};
pub use operation::{
    Arithmetic, BinaryOperation, Comparison, Logic, Shift, UnaryOperation, binary_operation,
    plain_operation, unary_operation,
};
pub use statement::{Body, BodyCode, CatchClause, Statement, SwitchGroup, SwitchLabel};
pub use types::{ClassName, Element, Numeric, Promoted, ResolvedType};
