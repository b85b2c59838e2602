ghost use Rattle.std.specs.Prelude.{◌≡◌, IfOk, OnOk, OnErr, length};
ghost use Rattle.ras_rounds.specs.Rounds.{IsAfter, region_classes};

use crate::after::case_after;
use crate::changes::changes_between;
use crate::mend::{loose_flags, settle};
use online_mover::Mover;
use plan_model::{Case, Grouping};
use program_rows::{Phase, movables};
use ras_table::List;
use std::alloc::{AllocError, Global};
use std::marker::Model;
use std::mem::replace;
use symmetry_classes::{Classes, group};

/// The classes of the region phase of a case, which are kept across rounds.
#[derive(Debug, Drop)]
pub struct Table {
    classes: Classes,
}

impl Model for Table {
    ghost use Rattle.std.specs.Prelude.{List};
    ghost use Rattle.symmetry_classes.specs.declared.groups.Class.{Class};

    ghost Value = { List Class };

    ghost view = { λ table. table.classes.list };
}

impl Table {
    /// The table of a case.
    ///
    /// # Errors
    /// For want of memory.
    pub fn new(alloc: Global, case: &Case) -> Result<Table, AllocError>
        ensures { IfOk result (λ table. table ≡ region_classes case.now) }
    {
        let flags = movables(alloc, case, &Phase::Region)?;
        let classes = group(alloc, case, &flags, false, Grouping::Class)?;
        Ok(Table { classes })
    }

    /// The classes.
    pub fn classes(&self) -> &Classes
        ensures { result.now.list ≡ self.now }
    {
        &self.classes
    }

    /// Makes the case the one after a round that the mover has come to, and mends the table for the servers that changed. Time
    /// linear in the servers, and in the classes times the servers that changed.
    ///
    /// # Errors
    /// For want of memory. Then case and table are as before.
    pub fn carry(&mut self, alloc: Global, case: &mut Case, mover: &Mover) -> Result<(), AllocError>
        requires table { self.old ≡ region_classes case.old }
        requires servers { length mover.now.servers ≡ length case.old.places }
        requires reservations { length mover.now.case.wants ≡ length case.old.wants }
        ensures after { OnOk result (IsAfter case.old mover.now case.new) }
        ensures classes { OnOk result (self.new ≡ region_classes case.new) }
        ensures case_kept { OnErr result (case.new ≡ case.old) }
        ensures table_kept { OnErr result (self.new ≡ self.old) }
    {
        let after = case_after(alloc, case, mover)?;
        let changes = changes_between(alloc, case.places.as_slice(), after.places.as_slice())?;
        let loose = loose_flags(alloc, &changes, self.classes.list.as_slice(), &after)?;
        let fresh = group(alloc, &after, &loose, false, Grouping::Class)?;
        let empty = List::from_vec(Vec::new(alloc));
        let mut classes = replace(&mut self.classes.list, empty).into_vec();
        if classes.reserve(fresh.list.len() as usize).is_err() {
            self.classes.list = List::from_vec(classes);
            return Err(AllocError);
        }
        settle(&mut classes, fresh.list.into_vec(), &changes);
        self.classes.list = List::from_vec(classes);
        *case = after;
        Ok(())
    }
}
