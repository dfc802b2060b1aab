//! A bag that is lent, or one that was made of a scan for its reader.
ghost use Rattle.std.specs.Prelude.{◌≡◌};

use base_columns::Bag;
use std::marker::Model;

// A bag, its own or another's.
#[derive(Drop)]
enum LentOrOwn<'b> {
    Lent(&'b Bag),
    Own(Bag),
}

/// A bag for one reader, seen as its width and its rows.
#[derive(Drop)]
pub(crate) struct LentBag<'b> {
    kept: LentOrOwn<'b>,
}

impl<'b> Model for LentBag<'b> {
    ghost use Rattle.base_row_laws.specs.Ranked.{Relation};
    ghost use Rattle.base_value.specs.declared.value.Value.{Value as Datum};
    ghost use Rattle.exec_flat_plan.specs.Holding.{lent_relation};

    ghost Value = { Relation Datum };

    ghost view = { λ b. lent_relation b.kept };
}

impl<'b> LentBag<'b> {
    /// A bag that another keeps.
    pub(crate) fn lent(bag: &'b Bag) -> LentBag<'b>
        ensures { result ≡ bag.now }
    {
        LentBag {
            kept: LentOrOwn::Lent(bag),
        }
    }

    /// A bag of its own.
    pub(crate) fn own(bag: Bag) -> LentBag<'b>
        ensures { result ≡ bag }
    {
        LentBag {
            kept: LentOrOwn::Own(bag),
        }
    }

    /// The bag.
    pub(crate) fn get(&self) -> &Bag
        ensures { result.now ≡ self.now }
    {
        match &self.kept {
            LentOrOwn::Lent(bag) => bag,
            LentOrOwn::Own(bag) => bag,
        }
    }
}
