//! Moves of entries: what their notices tell of the map, as it stands behind them.

ghost use Rattle.std.specs.Prelude.{◌≡◌, ◌≤◌, ◌++◌, IfOk, OnOk, flat_map, length, map, take};
ghost use Rattle.sw_client.specs.Table as clients;
ghost use Rattle.sw_data.specs.declared.storage.Kept.{Kept};
ghost use Rattle.sw_rules.specs.History.{Legal, after};
ghost use Rattle.sw_tables.specs.Lent.{Rest, lent};
ghost use Rattle.sw_view.specs.Mapped.{mapped_after};
ghost use Rattle.sw_view.specs.Moves.{AreMoves};
ghost use Rattle.sw_worker.specs.Table as workers;
ghost use Rattle.sw_view.specs.Moving.{mapped_in, move_to, moved_by, moves_by, moves_told, row_move};

use crate::moves::Move;
use std::alloc::Global;
use sw_data::{Entry, NoMemory, Notice, RegistrationRow, Text};
use sw_reg::Registrations;
use sw_scope::ScopeMap;

// The registration that a notice tells to have got into the map, or to have left it.
fn moved_by(notice: &Notice) -> Option<u32>
    ensures { result ≡ moved_by notice.now }
{
    match notice {
        Notice::Mapped(number) => Some(*number),
        Notice::Unmapped(number) => Some(*number),
        _ => None,
    }
}

// The registration that the map has under a key and a scope, if it is there, and of them. It takes no memory.
fn mapped_in(
    registrations: &Registrations,
    scopes: &ScopeMap,
    key: &Text,
    scope: &Text,
) -> Option<u32>
    ensures { result ≡ mapped_in scopes.now registrations.now.rows key.now scope.now }
{
    let number = scopes.get(key, scope)?;
    let row = registrations.row(number)?;
    if row.key == *key && row.scope == *scope {
        Some(number)
    } else {
        None
    }
}

// The move to what a key and a scope map to.
fn move_to(
    alloc: Global,
    registrations: &Registrations,
    scopes: &ScopeMap,
    key: &Text,
    scope: &Text,
) -> Result<Move, NoMemory>
    ensures { IfOk result (λ made. made ≡ move_to key.now scope.now
        (mapped_in scopes.now registrations.now.rows key.now scope.now)) }
{
    let found = mapped_in(registrations, scopes, key, scope);
    let key = key.copy(alloc)?;
    let scope = scope.copy(alloc)?;
    match found {
        Some(registration) => Ok(Move::Set {
            key,
            scope,
            registration,
        }),
        None => Ok(Move::Remove { key, scope }),
    }
}

// The move to what the key and the scope of a row map to.
fn row_move(
    alloc: Global,
    registrations: &Registrations,
    scopes: &ScopeMap,
    row: &RegistrationRow,
) -> Result<Move, NoMemory>
    ensures { IfOk result (λ made. made
        ≡ row_move (mapped_in scopes.now registrations.now.rows) row.now) }
{
    move_to(alloc, registrations, scopes, &row.key, &row.scope)
}

// Adds the move of the registration that a notice tells of, if it is there.
fn add_move(
    alloc: Global,
    moves: &mut Vec<Move>,
    registrations: &Registrations,
    scopes: &ScopeMap,
    notice: &Notice,
) -> Result<(), NoMemory>
    ensures { OnOk result (moves.new.items
        ≡ moves.old.items ++ moves_by (mapped_in scopes.now registrations.now.rows) registrations.now.rows notice.now) }
{
    let Some(number) = moved_by(notice) else {
        return Ok(());
    };
    match registrations.row(number) {
        Some(row) => {
            moves.push(row_move(alloc, registrations, scopes, row)?)?;
            Ok(())
        }
        None => Ok(()),
    }
}

// Adds the moves of these notices.
fn add_moves(
    alloc: Global,
    moves: &mut Vec<Move>,
    registrations: &Registrations,
    scopes: &ScopeMap,
    notices: &[Notice],
) -> Result<(), NoMemory>
    ensures { OnOk result (moves.new.items
        ≡ moves.old.items ++ flat_map (moves_by (mapped_in scopes.now registrations.now.rows) registrations.now.rows) notices.now) }
{
    for notice in notices {
        add_move(alloc, moves, registrations, scopes, notice)?;
    }
    Ok(())
}

// The moves to what is mapped behind these entries, for each scope that one of their notices tells of.
fn moves_of(
    alloc: Global,
    registrations: &Registrations,
    scopes: &ScopeMap,
    entries: &[Entry],
) -> Result<Vec<Move>, NoMemory>
    ensures { IfOk result (λ moves. moves.items
        ≡ moves_told (mapped_in scopes.now registrations.now.rows) registrations.now.rows entries.now) }
{
    let mut moves = Vec::new(alloc);
    for entry in entries {
        add_moves(
            alloc,
            &mut moves,
            registrations,
            scopes,
            entry.notices.as_slice(),
        )?;
    }
    Ok(moves)
}

// The moves to what is mapped, for the scope of each registration.
fn all_moves(
    alloc: Global,
    registrations: &Registrations,
    scopes: &ScopeMap,
) -> Result<Vec<Move>, NoMemory>
    ensures { IfOk result (λ moves. moves.items
        ≡ map (row_move (mapped_in scopes.now registrations.now.rows)) registrations.now.rows) }
{
    let mut moves = Vec::new(alloc);
    for row in registrations.rows() {
        moves.push(row_move(alloc, registrations, scopes, row)?)?;
    }
    Ok(moves)
}

/// The moves of the entries of a history from a place on, where these are the tables of the state that it leaves.
pub fn moves_since(
    alloc: Global,
    registrations: &Registrations,
    scopes: &ScopeMap,
    history: &[Entry],
    from: usize,
) -> Result<Vec<Move>, NoMemory>
    requires { from ≤ length history.now }
    ensures { (base : Kept) (of_workers : workers.Table) (of_clients : clients.Table) (rest : Rest)
        → Legal base history.now
        → after base history.now ≡ lent scopes.now of_workers registrations.now of_clients rest
        → IfOk result (λ moves. AreMoves (mapped_after base (take from history.now)) moves.items
        (mapped_after base history.now)) }
{
    if from == 0 {
        return all_moves(alloc, registrations, scopes);
    }
    moves_of(alloc, registrations, scopes, history.split_at(from).1)
}
