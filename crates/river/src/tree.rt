// The tree of units.
ghost use Rattle.std.specs.Prelude.{◌≡◌};
ghost use Rattle.river.specs.Flow.{Ready};
ghost use Rattle.river.specs.Units.{units_of};

use model::Unit;
use std::marker::Model;

// Units that make a tree: at most 64, each draining into a later one of them or nowhere, with entries that can be added up.
#[derive(Drop)]
pub struct Tree<'a> {
    units: &'a [Unit],
}

impl<'a> Model for Tree<'a> {
    ghost use Rattle.std.specs.Prelude.{List};
    ghost use Rattle.model.specs.declared.Unit.{Unit};
    ghost use Rattle.river.specs.Flow.{Ready};
    ghost use Rattle.river.specs.Units.{units_of};

    ghost Value = { List Unit };

    ghost view = { λ t. t.units.now };

    ghost invariant = { λ t. Ready (units_of t.units.now) };
}

impl<'a> Tree<'a> {
    // The tree that these units make.
    pub fn new(units: &'a [Unit]) -> Tree<'a>
        requires { Ready (units_of units.now) }
        ensures { result ≡ units.now }
    {
        Tree { units }
    }

    // Its units, which make a tree.
    pub fn units(&self) -> &'a [Unit]
        ensures units { result.now ≡ self.now }
        ensures ready { Ready (units_of result.now) }
    {
        self.units
    }
}
