//! Whether calls on a table would be refused. Nothing changes.
#![tactic(auto, using(crate::proofs::offered::Steps::is_consistent))]

ghost use Rattle.std.specs.Prelude.{◌≡◌, ◌≢◌, IsErrOf, ℕ};
ghost use Rattle.bt_value.specs.Answers.{Answers};
ghost use Rattle.bt_table.specs.Calls.{Apply, BuildStep, Drain, DropIndex, Rebuild, permitted};
ghost use Rattle.bt_table.specs.Tables.{Lost};

use crate::index::{find_index, is_whole};
use crate::table::Table;
use crate::table::upkeep::find_tree;
use crate::workforce::Workforce;
use bt_rowtype::Item;
use bt_value::{Refusal, Text};
use std::alloc::Global;

impl Table {
    /// Whether [`Table::apply`] would be refused, and as what.
    pub fn check_apply<T, W: Workforce<T>>(
        &self,
        rt: &T,
        alloc: Global,
        items: &[Item<'_>],
        crew: &W,
    ) -> Result<(), Refusal>
        requires ready { W.accepts crew.now }
        ensures answer { Answers (permitted self.now (Apply items.now)) result }
        ensures failed { self.now ≡ Lost → IsErrOf result Refusal.Failed }
    {
        let schema = self.schema()?;
        let packet = crew.read_packet(rt, alloc, schema, items)?;
        drop(packet);
        Ok(())
    }

    /// Whether [`Table::build_step`] would be refused, and as what.
    pub fn check_build(&self, name: &Text) -> Result<(), Refusal>
        ensures { (count : ℕ) → result ≡ permitted self.now (BuildStep name.now count) }
    {
        let Some(trees) = &self.trees else {
            return Err(Refusal::Failed);
        };
        match find_index(self.heads.as_slice(), trees.entries.as_slice(), name) {
            Some((_place, index)) if is_whole(&index.head.cover) => Err(Refusal::AlreadyComplete),
            Some(_) => Ok(()),
            None => Err(Refusal::NoSuchTree),
        }
    }

    /// Whether [`Table::drop_index`] would be refused, and as what.
    pub fn check_drop(&self, name: &Text) -> Result<(), Refusal>
        ensures { result ≡ permitted self.now (DropIndex name.now) }
    {
        let Some(trees) = &self.trees else {
            return Err(Refusal::Failed);
        };
        match find_index(self.heads.as_slice(), trees.entries.as_slice(), name) {
            Some(_) => Ok(()),
            None => Err(Refusal::NoSuchTree),
        }
    }

    /// Whether [`Table::drain`] and [`Table::rebuild`] would be refused, and as what.
    pub fn check_upkeep(&self, name: &Text) -> Result<(), Refusal>
        ensures drain { result ≡ permitted self.now (Drain name.now) }
        ensures rebuild { result ≡ permitted self.now (Rebuild name.now) }
    {
        let Some(trees) = &self.trees else {
            return Err(Refusal::Failed);
        };
        let _found = find_tree(self.heads.as_slice(), trees.entries.as_slice(), name)?;
        Ok(())
    }
}
