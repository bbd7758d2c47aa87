//! A table behind a lock, and the stores that searches have of it. They serve other callers: workers share a `CertLog`.

ghost use Rattle.std.specs.Prelude.{◌≡◌, ◌≢◌, ◌≤◌, ◌+◌, ◌↔◌, ℕ, IfOk, IfSome};
ghost use Rattle.tt_search.specs.Stores.{HasKeyAndSide};
ghost use Rattle.tt_search.specs.declared.store.Kept.TheVariants.{Stored, Full};

use crate::capacity::MOST_KEPT_PROOFS;
use crate::table::TableState;
use std::alloc::Global;
use std::marker::Model;
use std::sync::{Arc, Mutex, Wait};
use tt_game::{Line, Side};
use tt_proof::Proof;
use tt_search::{Kept, Store};
use tt_sgf::NoMemory;

/// Proofs that several searches share. No program here has one.
#[derive(Drop)]
pub struct Table {
    state: Mutex<TableState>,
}

impl Table {
    /// An empty table. `NoMemory` where memory was refused.
    pub fn new(alloc: Global) -> Result<Table, NoMemory> {
        let state = TableState::new(alloc)?;
        Ok(Table {
            state: Mutex::new(state),
        })
    }
}

/// A handle on a table, through which at most 4,096 proofs may be kept. What it finds may have been kept through another
/// handle. No program here has one.
#[derive(Drop)]
pub struct LockedStore<'a, R> {
    rt: &'a R,
    table: &'a Table,
    kept: usize,
}

impl<'a, R> Model for LockedStore<'a, R> {
    ghost use Rattle.std.specs.Prelude.{◌≤◌, ℕ};
    ghost use Rattle.tt_share.specs.declared.capacity.TheConstants.{MOST_KEPT_PROOFS};

    ghost Value = { ℕ };

    ghost view = { λ s. s.kept };

    ghost invariant = { λ s. s.kept ≤ MOST_KEPT_PROOFS };
}

impl<'a, R> LockedStore<'a, R> {
    /// A handle through which nothing was kept yet.
    pub fn new(rt: &'a R, table: &'a Table) -> LockedStore<'a, R>
        ensures { result ≡ 0 }
    {
        LockedStore { rt, table, kept: 0 }
    }

    /// How many proofs may be kept through this handle: 4,096.
    pub fn capacity(&self) -> usize
        ensures { result ≡ MOST_KEPT_PROOFS }
    {
        MOST_KEPT_PROOFS
    }

    /// How many proofs were kept through this handle: at most 4,096.
    pub fn kept(&self) -> usize
        ensures kept { result ≡ self.now }
        ensures most { result ≤ MOST_KEPT_PROOFS }
    {
        self.kept
    }
}

impl<'a, R: Wait> Store for LockedStore<'a, R> {
    ghost use Rattle.tt_share.specs.declared.capacity.TheConstants.{MOST_KEPT_PROOFS};

    ghost capacity = { λ _. MOST_KEPT_PROOFS };

    ghost kept = { λ s. s };

    ghost may_answer = { Unit {0} };

    fn capacity(&self) -> usize {
        LockedStore::capacity(self)
    }

    fn kept(&self) -> usize {
        LockedStore::kept(self)
    }

    fn find(&mut self, line: &Line, s: Side) -> Result<Option<Arc<Proof>>, NoMemory> {
        let state = self.table.state.lock(self.rt);
        state.find(line, s)
    }

    fn keep(&mut self, p: Arc<Proof>) -> Kept {
        if self.kept == MOST_KEPT_PROOFS {
            return Kept::Full;
        }
        let key = p.key();
        let size = p.nodes();
        let mut state = self.table.state.lock(self.rt);
        match state.append(&key, size, p) {
            Ok(_) => {
                self.kept += 1;
                Kept::Stored
            }
            Err(_) => Kept::NoMemory,
        }
    }
}
