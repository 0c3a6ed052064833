ghost use Rattle.std.specs.Prelude.{◌≡◌};

use crate::view::View;
use atomic_table::Badge;
use std::marker::Model;

/// What a thread enters a cell with. It has a number, and contracts know the beginning of the history that its holder has
/// seen. It can't be copied: whoever has it is alone with its number.
#[derive(Drop)]
pub struct Pass {
    pub(crate) badge: Badge<View>,
    pub(crate) who: u32,
}

impl Model for Pass {
    ghost use Rattle.std.specs.Prelude.{◌≡◌, ◌∷◌, []};
    ghost use Rattle.chew_spec_cell.specs.Pass as spec;

    ghost Value = { spec.Pass };

    ghost use Rattle.chew_cell.specs.Seats.{first_view, pass_of, view_of};

    ghost view = { λ p. pass_of p.badge.table_id (first_view p.badge.views) p.who };

    ghost invariant = { λ p. p.badge.views ≡ view_of (pass_of p.badge.table_id (first_view p.badge.views) p.who) ∷ [] };
}

impl Pass {
    /// Its number, from 0 on.
    pub fn who(&self) -> u32
        ensures { result ≡ self.now.who }
    {
        self.who
    }
}
