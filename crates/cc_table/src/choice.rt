// The choice among the rows of a part.
ghost use Rattle.std.specs.Prelude.{◌≡◌, IsTrue, drop, MatchOption, None};
ghost use Rattle.cc_table.specs.Choice as spec;

use crate::pattern::accepts_one;
use crate::symbols::{Input, Pattern, Symbol, Take};

/// What a part is at some inputs.
#[derive(Clone, Copy)]
pub struct Row {
    pub on: &'static [Pattern],
    pub take: Take,
    /// What is expected in its place.
    pub part: &'static [Symbol],
}

/// What a part is at an input.
#[derive(Clone, Copy)]
pub struct Chosen {
    pub take: Take,
    pub part: &'static [Symbol],
}

/// The first row for an input.
pub fn choose(rows: &[Row], input: Input) -> Option<Chosen>
    ensures { spec.Chooses (spec.seen rows.now) input result }
{
    for row in rows {
        if accepts_one(row.on, input) {
            return Some(Chosen {
                take: row.take,
                part: row.part,
            });
        }
    }
    None
}
