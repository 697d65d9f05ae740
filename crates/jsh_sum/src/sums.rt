use jsh_tree::Seq;

/// An operand, and what is added to it and subtracted from it in turn (JLS 15.18). The language that is
/// evaluated so far has sums alone.
#[derive(Clone, Debug, PartialEq, Eq, Drop)]
pub struct Sum {
    /// The value of a literal, or of one behind a minus.
    pub first: i32,
    pub rest: Seq<Part>,
}

/// An operator and its right operand.
#[derive(Clone, Copy, Debug, PartialEq, Eq)]
pub struct Part {
    pub operator: AdditiveOperator,
    /// The value of a literal, or of one behind a minus.
    pub operand: i32,
}

/// `+` or `-`
#[derive(Clone, Copy, Debug, PartialEq, Eq)]
pub enum AdditiveOperator {
    Plus,
    Minus,
}
