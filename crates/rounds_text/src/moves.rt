//! The moves of a round, and the case after them.
ghost use Rattle.std.specs.Prelude.{◌≡◌, ◌≤◌, IfOk, IfSome, IsTrue, length};
ghost use Rattle.std.specs.List.{list_all};
ghost use Rattle.ras_inventory.specs.RegionRule.{server_names};
ghost use Rattle.ras_requests.specs.RequestsRule.{reservation_names};
ghost use Rattle.plan_model.specs.Allowed.{fits, serves};
ghost use Rattle.plan_model.specs.Units.{servers_with_places};
ghost use Rattle.ras_rounds.specs.Rounds.{region_classes};
ghost use Rattle.rounds_text.specs.Ready.{AreThere, AreWithin};
ghost use Rattle.rounds_text.specs.Rounds.{AddsMoves, IsMoved};
ghost use Rattle.plan_checker.specs.Target.{target_of};

use crate::events::events_of;
use crate::options::RoundOptions;
use move_text::run_text;
use online_mover::Mover;
use plan_checker::target_of;
use plan_document::Document;
use plan_model::{Assignment, Case};
use ras_inventory::Region;
use ras_requests::Requests;
use ras_rounds::{Entry, Table};
use ras_table::List;
use std::alloc::{AllocError, Global};

// The text of the moves of a round to a target, over the events of the round. The case becomes the one after them, and the
// table that case's.
fn move_on(
    alloc: Global,
    region: &Region,
    requests: &Requests,
    options: RoundOptions,
    entries: &List<Entry>,
    number: u32,
    target: &Assignment,
    case: &mut Case,
    table: &mut Table,
) -> Result<Vec<u8>, AllocError>
    requires servers { length case.old.places ≡ length region.now.servers }
    requires within { AreWithin options }
    requires there { AreThere (length region.now.servers) entries.now }
    requires fitting { IsTrue (fits case.old target.now) }
    requires serving { IsTrue (list_all (serves case.old) (servers_with_places case.old target.now)) }
    requires table { table.old ≡ region_classes case.old }
    ensures moved { IfOk result (λ text. IsMoved
        (record { servers = server_names region.now.servers; reservations = reservation_names requests.now.list; options = options; entries = entries.now })
        number case.old target.now text.items case.new) }
    ensures servers { length case.new.places ≡ length case.old.places }
    ensures reservations { length case.new.wants ≡ length case.old.wants }
    ensures table { table.new ≡ region_classes case.new }
{
    let events = events_of(alloc, number, entries)?;
    let mut mover = Mover::start(alloc, case, target, options.at_once)?;
    let text = run_text(alloc, region, requests, &mut mover, &events)?;
    table.carry(alloc, case, &mover)?;
    Ok(text)
}

/// Adds the text of the moves of a round to the target of its document, over the events of the round. The case becomes the one
/// after them, and the table that case's. Without a target nothing is added. Whether there was one.
pub(crate) fn put_moves(
    alloc: Global,
    text: &mut Vec<u8>,
    region: &Region,
    requests: &Requests,
    options: RoundOptions,
    entries: &List<Entry>,
    number: u32,
    document: &Document,
    case: &mut Case,
    table: &mut Table,
) -> Result<bool, AllocError>
    requires servers { length case.old.places ≡ length region.now.servers }
    requires within { AreWithin options }
    requires there { AreThere (length region.now.servers) entries.now }
    requires fitting { IfSome (target_of document.now) (λ target. IsTrue (fits case.old target)) }
    requires serving { IfSome (target_of document.now) (λ target. IsTrue (list_all (serves case.old) (servers_with_places case.old target))) }
    requires table { table.old ≡ region_classes case.old }
    ensures moved { IfOk result (AddsMoves
        (record { servers = server_names region.now.servers; reservations = reservation_names requests.now.list; options = options; entries = entries.now })
        number case.old (target_of document.now) text.old.items text.new.items case.new) }
    ensures servers { length case.new.places ≡ length case.old.places }
    ensures reservations { length case.new.wants ≡ length case.old.wants }
    ensures table { table.new ≡ region_classes case.new }
{
    match target_of(document) {
        Some(target) => {
            let moves = move_on(
                alloc, region, requests, options, entries, number, target, case, table,
            )?;
            text.extend_from_slice(moves.as_slice())?;
            Ok(true)
        }
        None => Ok(false),
    }
}
