//! A counter of steps that takes no bytes and does nothing at run time, for bounds on how often
//! something is done.
#![tactic(auto)]

ghost use Rattle.std.specs.Prelude.{◌≡◌, ◌+◌, ◌<◌};

use std::marker::Model;
use std::sync::ledger::{Blank, Book, Ledger, Share};

/// How many steps were taken. Only `tick` changes it. One step is one attribution of a snippet.
#[derive(Drop)]
pub struct Steps<L: Ledger> {
    book: Book<L>,
    share: Share<L>,
}

impl<L: Ledger> Model for Steps<L> {
    ghost use Rattle.std.specs.Prelude.{ℕ, ◌<◌};

    ghost Value = { ℕ };

    ghost view = { λ s. s.book.total };

    ghost invariant = { λ s. 0 < s.share.parts };
}

impl<L: Ledger> Steps<L> {
    /// A counter that stands at 0. A caller that counts nothing passes `Blank::new(1)` on and picks the
    /// ledger of that blank.
    pub fn open(blank: Blank) -> Steps<L>
        requires name { blank.name ≡ L.name }
        requires parts { blank.parts ≡ L.parts }
        requires some { 0 < L.parts }
        ensures { result ≡ 0 }
    {
        let (book, share) = blank.open::<L>();
        Steps { book, share }
    }

    pub fn tick(&mut self)
        ensures { self.new ≡ self.old + 1 }
    {
        self.book.add(&mut self.share, 1);
    }
}

#[cfg(test)]
mod tests {
    use super::*;
    use std::marker::Brand;

    fn ticked<L: Ledger>(blank: Blank)
        requires name { blank.name ≡ L.name }
        requires parts { blank.parts ≡ L.parts }
        requires some { 0 < L.parts }
    {
        let mut steps = Steps::<L>::open(blank);
        steps.tick();
    }

    #[test]
    fn a_counter_ticks() {
        ticked::<Brand>(Blank::new(1));
    }
}
