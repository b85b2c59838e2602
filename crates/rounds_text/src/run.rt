//! A run of rounds.
ghost use Rattle.std.specs.Prelude.{◌≡◌, ◌<◌, ◌&&◌, IfErr, IfOk, length, nat_lt};
ghost use Rattle.ras_inventory.specs.RegionRule.{server_names};
ghost use Rattle.ras_requests.specs.RequestsRule.{reservation_names};
ghost use Rattle.program_rows.specs.Settings.{region_setting};
ghost use Rattle.program_rows.specs.Sizes.{IsFault, size_fault_of};
ghost use Rattle.ras_rounds.specs.Rounds.{region_classes};
ghost use Rattle.rounds_text.specs.Ready.{AreThere, AreWithin};
ghost use Rattle.rounds_text.specs.Runs.{IsNext};
ghost use Rattle.rounds_text.specs.Scripts.{rounds_of};

use crate::done::Round;
use crate::events::rounds_of;
use crate::lines::{put_document, put_line};
use crate::moves::put_moves;
use crate::options::RoundOptions;
use plan_checker::Planner;
use plan_model::Case;
use program_rows::SizeFault;
use ras_inventory::Region;
use ras_requests::Requests;
use ras_rounds::{Entry, Table, round};
use ras_table::List;
use std::alloc::{AllocError, Global};
use std::marker::Model;

/// A run of rounds over a script: what it is over, how many rounds were run, and the case of the next one with its classes.
#[derive(Drop)]
pub struct Rounds {
    region: Region,
    requests: Requests,
    options: RoundOptions,
    entries: List<Entry>,
    case: Case,
    table: Table,
    done: u32,
}

impl Model for Rounds {
    ghost use Rattle.ras_inventory.specs.RegionRule.{server_names};
    ghost use Rattle.ras_requests.specs.RequestsRule.{reservation_names};
    ghost use Rattle.rounds_text.specs.Ready.{IsReady};
    ghost use Rattle.rounds_text.specs.Runs.{Run};

    ghost Value = { Run };

    ghost view = { λ r. record {
      agenda = record { servers = server_names r.region.servers; reservations = reservation_names r.requests.list; options = r.options; entries = r.entries };
      done = r.done;
      case = r.case;
    } };

    ghost invariant = { λ r. IsReady r.region r.requests r.options r.entries r.case r.table r.done };
}

// Whether a further round follows a round with this number.
fn follows(moved: bool, number: u32, last: u32) -> bool
    ensures { result ≡ (moved && nat_lt number last) }
{
    moved && number < last
}

impl Rounds {
    /// A run that begins at a case of the region and the requests. No round was run yet.
    ///
    /// # Errors
    /// For want of memory.
    pub fn start(
        alloc: Global,
        region: Region,
        requests: Requests,
        case: Case,
        entries: List<Entry>,
        options: RoundOptions,
    ) -> Result<Rounds, AllocError>
        requires servers { length case.places ≡ length region.servers }
        requires reservations { length case.wants ≡ length requests.list }
        requires there { AreThere (length region.servers) entries }
        requires within { AreWithin options }
        ensures { IfOk result (λ rounds. rounds ≡ record {
          agenda = record { servers = server_names region.servers; reservations = reservation_names requests.list; options = options; entries = entries };
          done = 0;
          case = case;
        }) }
    {
        let table = Table::new(alloc, &case)?;
        Ok(Rounds {
            region,
            requests,
            options,
            entries,
            case,
            table,
            done: 0,
        })
    }

    /// Runs the next round, by a planner. There is one where fewer rounds were run than the script has.
    ///
    /// # Errors
    /// Exactly where the program of the region of the round's case has too many columns or rows; or for want of memory. Then
    /// nothing is said of the run.
    pub fn next<P: Planner>(&mut self, alloc: Global, planner: &mut P) -> Result<Round, SizeFault>
        requires { self.old.done < rounds_of self.old.agenda.entries }
        ensures round { IfOk result (λ round. IsNext self.old round self.new) }
        ensures fault { IfErr result (IsFault (size_fault_of self.old.case (region_setting self.old.case) (region_classes self.old.case))) }
    {
        let last = rounds_of(&self.entries);
        let number = self.done + 1;
        let asked = self.options;
        let document = round(
            alloc,
            &self.case,
            &self.table,
            asked.gap,
            asked.nodes,
            asked.racks,
            planner,
        )?;
        let mut text = Vec::new(alloc);
        put_line(&mut text, number, self.table.classes().list.len())?;
        put_document(alloc, &mut text, &self.region, &self.requests, &document)?;
        let moved = put_moves(
            alloc,
            &mut text,
            &self.region,
            &self.requests,
            asked,
            &self.entries,
            number,
            &document,
            &mut self.case,
            &mut self.table,
        )?;
        let goes_on = follows(moved, number, last);
        self.done = number;
        Ok(Round {
            text,
            answer: document.answer,
            goes_on,
        })
    }
}
