ghost use Rattle.std.specs.Prelude.{◌≡◌, nat_eq, IfOk};
ghost use Rattle.std.specs.Cmp.{partial_equiv_from_equiv};
ghost use Rattle.std.specs.Cmp.Lexicographic.{pointwise, nat_list_eq_equiv};

use std::alloc::{AllocError, Global};
use std::marker::Model;

/// A source text. Contracts see it as the list of its bytes, which are UTF-8.
#[derive(Debug, Drop)]
pub struct SrcText {
    text: String,
}

impl Model for SrcText {
    ghost use Rattle.std.specs.Prelude.{List, ℕ};
    ghost use Rattle.std.specs.String.{string_bytes};

    ghost Value = { List ℕ };

    ghost view = { λ source. string_bytes source.text };
}

impl SrcText {
    pub fn from_text(alloc: Global, text: &str) -> Result<SrcText, AllocError>
        ensures { IfOk result (λ source. source ≡ text.now) }
    {
        let text = String::from_str(alloc, text)?;
        Ok(SrcText { text })
    }

    pub fn as_str(&self) -> &str
        ensures { result.now ≡ self.now }
    {
        self.text.as_str()
    }
}

impl Clone for SrcText {
    ghost is_clone = { λ from copy. copy ≡ from };

    fn clone(&self) -> Result<SrcText, AllocError> {
        Ok(SrcText {
            text: self.text.clone()?,
        })
    }
}

impl PartialEq for SrcText {
    ghost eq = { pointwise nat_eq };

    ghost laws = { partial_equiv_from_equiv nat_list_eq_equiv };

    fn eq(&self, other: &Self) -> bool {
        self.as_str() == other.as_str()
    }
}

impl Eq for SrcText {
    ghost laws = { nat_list_eq_equiv };
}
