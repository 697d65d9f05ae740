ghost use Rattle.std.specs.Prelude.{◌≡◌, ◌<◌, length, IfSome};
ghost use Rattle.std.specs.Option.{option_copied};
ghost use Rattle.jsh_core.specs.Cells.{cell_place, cell_value, set_cell};

use crate::world::Cell;
use jsh_text::Value;
use jsh_tree::Link;

/// The place of a link's cell. It is looked for from the end, where the young ones are.
pub fn cell_place(cells: &[Cell], link: &Link) -> Option<usize>
    ensures place { result ≡ cell_place link.now cells.now }
    ensures within { IfSome result (λ place. place < length cells.now) }
{
    let mut rest = cells.len();
    while rest > 0 {
        rest -= 1;
        if cells[rest].link == *link {
            return Some(rest);
        }
    }
    None
}

/// The value of a link's variable.
pub fn value_of_cell<'a>(cells: &'a [Cell], link: &Link) -> Option<&'a Value>
    ensures { option_copied result ≡ cell_value link.now cells.now }
{
    let place = cell_place(cells, link)?;
    Some(&cells[place].value)
}

/// A link's variable gets a value.
pub fn set_cell(cells: &mut Vec<Cell>, link: &Link, value: Value)
    ensures { cells.new.items ≡ set_cell link.now value cells.old.items }
{
    if let Some(place) = cell_place(cells, link) {
        cells[place].value = value;
    }
}
