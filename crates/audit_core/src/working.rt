//! Workers: threads that do the pieces of a case together, over one book under a lock.

ghost use Rattle.std.specs.Prelude.{◌≡◌, None};
ghost use Rattle.case_book.specs.Ties.{tie_fault_of};

use crate::gate::Gate;
use case_book::{Case, Finding, Piece, SharedBook};
use std::alloc::Global;
use std::sync::Wait;
use std::thread;
use std::thread::Threads;

/// Claims the next piece. The lock is held for the claim alone.
fn claim(rt: &impl Wait, book: &SharedBook) -> Option<Piece> {
    book.lock(rt).claim()
}

/// Posts a finding. One that the book doesn't keep is dropped: its piece is done again after the joins, if it is missing.
fn post(rt: &impl Wait, book: &SharedBook, found: Finding) {
    let _ = book.lock(rt).post(found);
}

/// What one worker does, a piece at most each turn: it claims a piece, does its work outside the lock, passes the gate, and
/// posts what it found. It stops where nothing is left to be claimed, or where it is refused memory: the piece that it
/// claimed is then missing.
fn work<R: Wait, G: Gate>(rt: &R, alloc: Global, case: &Case, book: &SharedBook, gate: &G)
    requires { tie_fault_of case.now ≡ None }
{
    for _ in 0..case.logs().len() + case.links().len() {
        let Some(piece) = claim(rt, book) else {
            return;
        };
        let Ok(found) = case.find(alloc, piece) else {
            return;
        };
        if let Some(found) = found {
            gate.before_post(piece.number);
            post(rt, book, found);
        }
    }
}

/// So many workers do the pieces of a case, the calling thread among them. It returns when all have ended. A thread that
/// can't be started is done without.
pub(crate) fn work_together<R: Threads + Wait + Sync, G: Gate + Sync>(
    rt: &R,
    alloc: Global,
    case: &Case,
    book: &SharedBook,
    workers: u32,
    gate: &G,
)
    requires { tie_fault_of case.now ≡ None }
{
    thread::scope(
        thread::scope_env(),
        rt,
        move |scope|
            requires { tie_fault_of case.now ≡ None }
        {
            for _ in 1..workers {
                let job = move ||
                    requires { tie_fault_of case.now ≡ None }
                { work(rt, alloc, case, book, gate) };
                if scope.spawn(job).is_err() {
                    break;
                }
            }
            work(rt, alloc, case, book, gate);
        },
    )
}
