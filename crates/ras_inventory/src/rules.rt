ghost use Rattle.std.specs.Prelude.{◌≡◌, map, length};
ghost use Rattle.ras_table.specs.Numbered.{after_number};
ghost use Rattle.ras_inventory.specs.HomeWords.{home_of, has_left};
ghost use Rattle.ras_inventory.specs.Registers.{IsRegisterOf};
ghost use Rattle.ras_inventory.specs.Lines.{stands_twice, has_moved_rack, has_moved_board, is_one_too_many, broken_rule};

use crate::fault::RegionWhy;
use crate::homes::Homes;
use crate::line::Line;
use crate::register::Register;
use ras_table::{Name, Names};

fn stands_twice(before: &[Line], register: &Register, line: &Line) -> bool
    requires { IsRegisterOf before.now register.now }
    ensures { result ≡ stands_twice before.now line.now }
{
    register.names.find(line.name.bytes()).is_some()
}

// Whether a name has another home.
fn has_left(homes: &Homes, name: &Name, home: &Name) -> bool
    ensures { result ≡ has_left homes.now name.now home.now }
{
    match homes.find(name.bytes()) {
        Some(found) => found.bytes() != home.bytes(),
        None => false,
    }
}

fn has_moved_rack(before: &[Line], register: &Register, line: &Line) -> bool
    requires { IsRegisterOf before.now register.now }
    ensures { result ≡ has_moved_rack before.now line.now }
{
    has_left(&register.rack_boards, &line.rack, &line.board)
}

fn has_moved_board(before: &[Line], register: &Register, line: &Line) -> bool
    requires { IsRegisterOf before.now register.now }
    ensures { result ≡ has_moved_board before.now line.now }
{
    has_left(&register.board_centers, &line.board, &line.center)
}

// How many names there are with one more.
fn count_with(names: &Names, name: &Name) -> u64
    ensures { result ≡ length (after_number names.now name.now) }
{
    let count = names.len() as u64;
    match names.find(name.bytes()) {
        Some(_) => count,
        None => count + 1,
    }
}

#[tactic(auto, using(crate::proofs::LinesLemmas::boards_pushed))]
fn is_one_too_many(before: &[Line], register: &Register, line: &Line) -> bool
    requires { IsRegisterOf before.now register.now }
    ensures { result ≡ is_one_too_many before.now line.now }
{
    before.len() >= 20_000 || count_with(&register.boards, &line.board) >= 65
}

/// The first rule that a server breaks, after the servers before it.
pub fn broken_rule(before: &[Line], register: &Register, line: &Line) -> Option<RegionWhy>
    requires { IsRegisterOf before.now register.now }
    ensures { result ≡ broken_rule before.now line.now }
{
    if stands_twice(before, register, line) {
        Some(RegionWhy::Twice)
    } else if has_moved_rack(before, register, line) {
        Some(RegionWhy::RackMoved)
    } else if has_moved_board(before, register, line) {
        Some(RegionWhy::BoardMoved)
    } else if is_one_too_many(before, register, line) {
        Some(RegionWhy::Many)
    } else {
        None
    }
}
