use super::*;
use jsh_tree::Seq;
use std::test::Fail;

#[test]
fn values_wrap(rt: HostRuntime) -> Result<(), Fail> {
    let rows = [
        (0, AdditiveOperator::Plus, 0, 0),
        (1, AdditiveOperator::Plus, 2, 3),
        (1, AdditiveOperator::Minus, -2, 3),
        (-2147483648, AdditiveOperator::Minus, 1, 2147483647),
        (2147483647, AdditiveOperator::Plus, 1, -2147483648),
    ];
    for (first, operator, operand, expected) in rows {
        let parts = [Part { operator, operand }];
        let sum = Sum {
            first,
            rest: Seq::from_slice(rt.alloc(), &parts)?,
        };
        assert_eq!(rt; value_of(&sum), expected);
    }
    Ok(())
}
