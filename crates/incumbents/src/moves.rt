//! Moves of one server of a class from one column to another.

use crate::effects::Effect;
use crate::layout::Layout;
use crate::state::{State, put};

/// The most moves of one kind that are made from one point.
const TURNS: u32 = 16384;

/// The most times that all pairs of moves are tried.
const SWEEPS: u32 = 20;

/// What a move is to do.
#[derive(Clone, Copy, Debug)]
pub enum Aim {
    /// Take away from what is short, at the least cost for each unit.
    Mend,
    /// Lower the cost, and leave no more short than before.
    Save,
    /// Take away all that is short, at a cost below `below`.
    Answer { short: i64, below: i64 },
}

/// One less of a column and one more of another, and what that does.
#[derive(Clone, Copy, Debug)]
struct Move {
    from: u32,
    to: u32,
    effect: Effect,
}

/// Whether a move of this effect serves the aim.
fn serves(aim: Aim, effect: Effect) -> bool {
    match aim {
        Aim::Mend => effect.short < 0,
        Aim::Save => effect.short <= 0 && effect.cost < 0,
        Aim::Answer { short, below } => {
            effect.short.saturating_add(short) <= 0 && effect.cost < below
        }
    }
}

/// Whether an effect costs less than another for each unit that is no longer short, or as little and takes away more.
fn mends_cheaper(effect: Effect, known: Effect) -> bool {
    let left = effect.cost.saturating_mul(known.short.saturating_neg());
    let right = known.cost.saturating_mul(effect.short.saturating_neg());
    left < right || left == right && effect.short < known.short
}

/// Whether an effect serves the aim better than what is known.
fn beats(aim: Aim, effect: Effect, known: &Option<Move>) -> bool {
    match known {
        None => true,
        Some(known) => match aim {
            Aim::Mend => mends_cheaper(effect, known.effect),
            Aim::Save | Aim::Answer { .. } => effect.cost < known.effect.cost,
        },
    }
}

/// Keeps the best move from a column to others of its class.
fn keep_best_from(state: &State, aim: Aim, from: u32, class: &[u32], best: &mut Option<Move>) {
    let fall = state.fall(from);
    for to in class {
        let effect = fall.with(state.rise(*to));
        if *to != from && serves(aim, effect) && beats(aim, effect, best) {
            *best = Some(Move {
                from,
                to: *to,
                effect,
            });
        }
    }
}

/// The best move for an aim, the first among equals.
fn best_move(layout: &Layout, state: &State, aim: Aim) -> Option<Move> {
    let mut best = None;
    for class in layout.classes.as_slice() {
        for from in class.columns.as_slice() {
            if state.count(*from) > 0 {
                keep_best_from(state, aim, *from, class.columns.as_slice(), &mut best);
            }
        }
    }
    best
}

/// Makes a move.
fn make(layout: &Layout, state: &mut State, chosen: Move) {
    let fewer = state.count(chosen.from).saturating_sub(1);
    let more = state.count(chosen.to).saturating_add(1);
    put(state.counts.as_mut_slice(), chosen.from, fewer);
    put(state.counts.as_mut_slice(), chosen.to, more);
    state.add_units(layout, chosen.from, -1);
    state.add_units(layout, chosen.to, 1);
    state.settle_rows(layout, chosen.from);
    state.settle_rows(layout, chosen.to);
    state.short = state.short.saturating_add(chosen.effect.short);
    state.weigh_around(layout, chosen.from);
    state.weigh_around(layout, chosen.to);
}

/// Takes moves that mend until nothing is short. Whether nothing is.
pub fn mend(layout: &Layout, state: &mut State) -> bool {
    for _ in 0..TURNS {
        if state.short <= 0 {
            return true;
        }
        let Some(chosen) = best_move(layout, state, Aim::Mend) else {
            return false;
        };
        make(layout, state, chosen);
    }
    false
}

/// Takes moves that save as long as there is one.
pub fn save(layout: &Layout, state: &mut State) {
    for _ in 0..TURNS {
        let Some(chosen) = best_move(layout, state, Aim::Save) else {
            return;
        };
        make(layout, state, chosen);
    }
}

/// The move from one column to another.
fn move_between(state: &State, from: u32, to: u32) -> Move {
    Move {
        from,
        to,
        effect: state.fall(from).with(state.rise(to)),
    }
}

/// Makes the move that takes a move back.
fn take_back(layout: &Layout, state: &mut State, made: Move) {
    let back = move_between(state, made.to, made.from);
    make(layout, state, back);
}

/// Makes a move, and where that alone does not save, the best move that makes both save with nothing short. Where there is none, the move is
/// taken back. Whether it was kept.
fn exchange_between(layout: &Layout, state: &mut State, from: u32, to: u32) -> bool {
    let first = move_between(state, from, to);
    make(layout, state, first);
    if state.short <= 0 && first.effect.cost < 0 {
        return true;
    }
    let aim = Aim::Answer {
        short: state.short,
        below: first.effect.cost.saturating_neg(),
    };
    match best_move(layout, state, aim) {
        Some(second) => {
            make(layout, state, second);
            true
        }
        None => {
            take_back(layout, state, first);
            false
        }
    }
}

/// Tries each move from a column to others of its class. Whether one was kept.
fn exchange_from(layout: &Layout, state: &mut State, from: u32, class: &[u32]) -> bool {
    let mut kept = false;
    for to in class {
        if *to != from && state.count(from) > 0 && exchange_between(layout, state, from, *to) {
            kept = true;
        }
    }
    kept
}

/// Tries each move once. Whether one was kept.
fn sweep(layout: &Layout, state: &mut State) -> bool {
    let mut kept = false;
    for class in layout.classes.as_slice() {
        for from in class.columns.as_slice() {
            if exchange_from(layout, state, *from, class.columns.as_slice()) {
                kept = true;
            }
        }
    }
    kept
}

/// Takes pairs of moves that save together, as long as there is one.
pub fn exchange(layout: &Layout, state: &mut State) {
    for _ in 0..SWEEPS {
        if !sweep(layout, state) {
            return;
        }
    }
}
