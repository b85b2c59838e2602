ghost use Rattle.std.specs.Prelude.{◌≡◌, ◌<◌, ◌-◌, ◌^◌, [], IfOk, OnOk, length};
ghost use Rattle.ras_table.specs.Numbered.{after_number};
ghost use Rattle.ras_inventory.specs.HomeWords.{after_home};

use crate::homes::Homes;
use crate::line::Line;
use ras_table::Names;
use std::alloc::{AllocError, Global};

/// What the servers of an inventory so far are looked up by.
#[derive(Drop)]
pub struct Register {
    /// The names of the servers.
    pub names: Names,
    /// The names of the switchboards.
    pub boards: Names,
    /// The switchboard of each rack.
    pub rack_boards: Homes,
    /// The datacenter of each switchboard.
    pub board_centers: Homes,
}

impl Register {
    /// A register of no servers.
    pub fn new(alloc: Global) -> Result<Register, AllocError>
        ensures names { IfOk result (λ register. register.names ≡ []) }
        ensures boards { IfOk result (λ register. register.boards ≡ []) }
        ensures rack_boards { IfOk result (λ register. register.rack_boards ≡ []) }
        ensures board_centers { IfOk result (λ register. register.board_centers ≡ []) }
    {
        Ok(Register {
            names: Names::new(alloc)?,
            boards: Names::new(alloc)?,
            rack_boards: Homes::new(alloc),
            board_centers: Homes::new(alloc),
        })
    }

    /// Takes one more server in.
    pub fn add(&mut self, line: &Line) -> Result<(), AllocError>
        requires names { length self.old.names < 2 ^ 32 - 1 }
        requires boards { length self.old.boards < 2 ^ 32 - 1 }
        ensures names { OnOk result (self.new.names ≡ after_number self.old.names line.now.name) }
        ensures boards { OnOk result (self.new.boards ≡ after_number self.old.boards line.now.board) }
        ensures rack_boards { OnOk result (self.new.rack_boards ≡ after_home self.old.rack_boards line.now.rack line.now.board) }
        ensures board_centers { OnOk result (self.new.board_centers ≡ after_home self.old.board_centers line.now.board line.now.center) }
    {
        self.names.number(&line.name)?;
        self.boards.number(&line.board)?;
        self.rack_boards.settle(&line.rack, &line.board)?;
        self.board_centers.settle(&line.board, &line.center)
    }

    /// The names of the servers.
    pub fn into_names(self) -> Names
        ensures { result ≡ self.names }
    {
        let Register { names, .. } = self;
        names
    }
}
