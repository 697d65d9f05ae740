//! The language of sums: which trees are sums of `int` literals (JLS 15.18), and a sum's value.
#![tactic(auto)]

mod reading;
mod sums;

ghost use Rattle.std.specs.Prelude.{◌≡◌};
ghost use Rattle.jsh_sum.specs.Sum.{value_of};

pub use reading::{Reading, sum_of};
pub use sums::{AdditiveOperator, Part, Sum};

/// The value of a sum as a Java `int`: what doesn't fit wraps (JLS 15.18.2).
pub fn value_of(sum: &Sum) -> i32
    ensures { result ≡ value_of sum.now }
{
    let mut value = sum.first;
    for part in sum.rest.as_slice() {
        value = match part.operator {
            AdditiveOperator::Plus => value.wrapping_add(part.operand),
            AdditiveOperator::Minus => value.wrapping_sub(part.operand),
        };
    }
    value
}

#[cfg(test)]
mod tests;
