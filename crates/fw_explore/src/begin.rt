//! The place from which nothing has moved yet.

ghost use Rattle.std.specs.Prelude.{◌≡◌, ◌∷◌, [], ℕ, List, IfOk, IsFalse};
ghost use Rattle.fw_explore_meaning.specs.Steps.{Had, IsFirstKey};

use crate::explorer::Explorer;
use crate::keeper::Keeper;
use crate::kept_bus::KeptBus;
use crate::step::Walker;
use fw_bus::Bus;
use fw_explore_endings::Rows;
use fw_explore_levels::Levels;
use fw_explore_told::Past;
use fw_kept_parts::{Full, Table};
use fw_log_names::Pairs;
use fw_outside::GrowSink;
use std::alloc::Global;

impl<P: Keeper> Walker<P> {
    // The key of the place from which nothing has moved yet.
    fn first_key(&mut self) -> Result<(), Full>
        requires { IsFalse self.old.kept.bus.spent }
        ensures { IfOk result (λ u. IsFirstKey (Had self.new.pasts) (P.Kept self.new.kept.places) self.old.kept.bus.machine self.new.key.items) }
    {
        let past = Past::new(self.alloc);
        let number = self.pasts.keep(0, &past)?;
        self.kept.keep()?;
        self.put_key(number, 0)?;
        Ok(())
    }
}

/// An explorer at the bus: its first level has one place, from which nothing has moved yet.
pub(crate) fn begin<P: Keeper>(
    alloc: Global,
    most: usize,
    places: P,
    bus: Bus,
) -> Result<Explorer<P>, Full>
    requires { IsFalse bus.spent }
    ensures level { IfOk result (λ e. (key : List ℕ) × IsFirstKey (Had e.walker.pasts) (P.Kept e.walker.kept.places) bus.machine key × (e.levels.level ≡ record { key = key; ways = 1; first = [] } ∷ [])) }
    ensures next { IfOk result (λ e. e.levels.next ≡ []) }
    ensures rows { IfOk result (λ e. e.rows.list.items ≡ []) }
    ensures ended { IfOk result (λ e. e.rows.ended ≡ 0) }
    ensures cut { IfOk result (λ e. e.rows.cut ≡ 0) }
{
    let mut walker = Walker {
        alloc,
        kept: KeptBus::new(alloc, places, bus),
        sink: GrowSink::new(alloc),
        pasts: Table::new(alloc)?,
        here: Vec::new(alloc),
        key: Vec::new(alloc),
        pairs: Pairs::new(),
    };
    walker.first_key()?;
    let levels = Levels::new(alloc, most, walker.key.as_slice())?;
    Ok(Explorer {
        walker,
        levels,
        rows: Rows::new(alloc),
    })
}
