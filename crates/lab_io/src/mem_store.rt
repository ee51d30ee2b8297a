//! A store in memory, whose calls can be made to fail.
ghost use Rattle.std.specs.Prelude.{◌≡◌, ◌≢◌, ◌↔◌, ◌≤◌, ◌++◌, ◌∷◌, [], Some, IfOk, OnOk, OnErr, IsNone, IsTrue};
ghost use Rattle.std.specs.Prelude.{length, take};
ghost use Rattle.std.specs.FinMap as map;
ghost use Rattle.lab_io.specs.Known.{counted, grown, Rose};
ghost use Rattle.lab_io.specs.Held.{IsReadAs};
ghost use Rattle.lab_io.specs.Store.{get_of, get_uses, kept_after, put_of, put_uses};
ghost use Rattle.lab_io.specs.StoreSeen.{IsGetToFail, IsListed, after_get, after_put};

use crate::files::{Files, ReadAnswer};
use crate::mem_files::MemFiles;
use crate::store::{Store, StoreAnswer};
use std::alloc::{AllocError, Global};
use std::marker::Model;

/// A call: its name, and the bytes of a put.
#[derive(Drop)]
struct StoreCall {
    name: Vec<u8>,
    put: Option<Vec<u8>>,
}

impl Model for StoreCall {
    ghost use Rattle.std.specs.Option.{option_map};
    ghost use Rattle.lab_io.specs.Store.{StoreUse};
    ghost use Rattle.lab_io.specs.StoreSeen.{use_code};

    ghost Value = { StoreUse };

    ghost coded = { use_code };

    ghost view = { λ call. record {
      name = call.name.items;
      put = option_map (λ bytes. bytes.items) call.put;
    } };
}

impl StoreCall {
    /// A put of these bytes.
    fn put_of(alloc: Global, name: &str, bytes: &[u8]) -> Result<StoreCall, AllocError>
        ensures { IfOk result (λ call. call ≡ put_of name.now bytes.now) }
    {
        let name = Vec::from_slice(alloc, name.as_bytes())?;
        let bytes = Vec::from_slice(alloc, bytes)?;
        Ok(StoreCall {
            name,
            put: Some(bytes),
        })
    }

    /// A get.
    fn get_of(alloc: Global, name: &str) -> Result<StoreCall, AllocError>
        ensures { IfOk result (λ call. call ≡ get_of name.now) }
    {
        let name = Vec::from_slice(alloc, name.as_bytes())?;
        Ok(StoreCall { name, put: None })
    }
}

/// A store in memory. Each call has a number, counted from 0, and those that are listed fail. The
/// number stays at 2^64 - 1 once it is there.
#[derive(Drop)]
pub struct MemStore {
    alloc: Global,
    /// None of its own reads is to fail.
    kept: MemFiles,
    uses: Vec<StoreCall>,
    failing: Vec<u64>,
    calls: u64,
    faults: u64,
}

impl Model for MemStore {
    ghost use Rattle.std.specs.Prelude.{◌≡◌, []};
    ghost use Rattle.lab_io.specs.StoreSeen.{StoreSeen, store_code};

    ghost Value = { StoreSeen };

    ghost coded = { store_code };

    ghost view = { λ store. record {
      kept = store.kept.held;
      uses = store.uses.items;
      failing = store.failing.items;
      calls = store.calls;
      faults = store.faults;
    } };

    ghost invariant = { λ store. store.kept.failing ≡ [] };
}

impl MemStore {
    /// No name keeps anything, and no call is to fail.
    pub fn new(alloc: Global) -> MemStore
        ensures { result
            ≡ record { kept = map.empty; uses = []; failing = []; calls = 0; faults = 0 } }
    {
        MemStore {
            alloc,
            kept: MemFiles::new(alloc),
            uses: Vec::new(alloc),
            failing: Vec::new(alloc),
            calls: 0,
            faults: 0,
        }
    }

    /// Lets the call with this number fail.
    pub fn fail_at(&mut self, call: u64) -> Result<(), AllocError>
        ensures ok { OnOk result (self.new
            ≡ record self.old { failing = self.old.failing ++ call ∷ [] }) }
        ensures err { OnErr result (self.new ≡ self.old) }
    {
        self.failing.push(call)?;
        Ok(())
    }

    /// Whether the number of the call that comes next is listed.
    fn is_listed(&self) -> bool
        ensures { IsTrue result ↔ IsListed self.now }
    {
        self.failing.contains(&self.calls)
    }

    /// Counts a call that has failed.
    fn fail(&mut self)
        ensures after { self.new ≡ record self.old { faults = counted self.old.faults } }
        ensures faults { self.old.faults ≤ self.new.faults }
    {
        self.faults = self.faults.saturating_add(1);
    }

    /// Keeps the bytes of a put that was told, or takes it back where there is no memory for them.
    fn keep(&mut self, name: &str, bytes: &[u8], told: usize) -> StoreAnswer
        ensures done { result ≡ StoreAnswer.Done → self.new
            ≡ record self.old { kept = map.insert self.old.kept name.now bytes.now } }
        ensures memory { result ≢ StoreAnswer.Done →
            (result ≡ StoreAnswer.Memory) × (self.new
            ≡ record self.old { uses = take told self.old.uses }) }
    {
        match self.kept.put(name, bytes) {
            Ok(()) => StoreAnswer::Done,
            Err(_) => {
                self.uses.truncate(told);
                StoreAnswer::Memory
            }
        }
    }

    /// Gives what a name keeps, of a get that was told, or takes it back where there is no memory.
    fn give(&mut self, name: &str, limit: usize, into: &mut Vec<u8>, told: usize) -> ReadAnswer
        requires empty { into.old.items ≡ [] }
        requires limit { limit ≤ 67108864 }
        ensures given { IsReadAs (Some self.old.kept) name.now limit result into.new.items }
        ensures failed { result ≢ ReadAnswer.Memory →
            (result ≡ ReadAnswer.Failed ↔ IsNone (map.get self.old.kept name.now)) }
        ensures told { result ≢ ReadAnswer.Memory → self.new ≡ self.old }
        ensures memory { result ≡ ReadAnswer.Memory → self.new
            ≡ record self.old { uses = take told self.old.uses } }
    {
        let answer = self.kept.read(name, limit, into);
        if answer == ReadAnswer::Memory {
            self.uses.truncate(told);
        }
        answer
    }

    /// How many calls are told.
    fn told(&self) -> usize
        ensures { result ≡ length self.now.uses }
    {
        self.uses.len()
    }

    /// Counts a put and tells it.
    fn tell_put(&mut self, name: &str, bytes: &[u8]) -> Result<(), AllocError>
        ensures ok { OnOk result (self.new ≡ record self.old {
          uses = self.old.uses ++ put_of name.now bytes.now ∷ [];
          calls = counted self.old.calls;
        }) }
        ensures err { OnErr result (self.new ≡ record self.old { calls = counted self.old.calls }) }
    {
        self.calls = self.calls.saturating_add(1);
        let call = StoreCall::put_of(self.alloc, name, bytes)?;
        self.uses.push(call)?;
        Ok(())
    }

    /// Counts a get and tells it.
    fn tell_get(&mut self, name: &str) -> Result<(), AllocError>
        ensures ok { OnOk result (self.new ≡ record self.old {
          uses = self.old.uses ++ get_of name.now ∷ [];
          calls = counted self.old.calls;
        }) }
        ensures err { OnErr result (self.new ≡ record self.old { calls = counted self.old.calls }) }
    {
        self.calls = self.calls.saturating_add(1);
        let call = StoreCall::get_of(self.alloc, name)?;
        self.uses.push(call)?;
        Ok(())
    }
}

impl Store for MemStore {
    ghost kept = { λ store. Some store.kept };

    ghost uses = { λ store. Some store.uses };

    ghost faults = { λ store. store.faults };

    #[tactic(auto, using(crate::proofs::Told::taken_back))]
    fn put(&mut self, name: &str, bytes: &[u8]) -> StoreAnswer
        ensures kept { Some self.new.kept ≡ kept_after result (Some self.old.kept) name.now bytes.now }
        ensures failed { result ≡ StoreAnswer.Failed → Rose self.old.faults self.new.faults }

        ensures uses { Some self.new.uses ≡ grown (Some self.old.uses) (put_uses result name.now bytes.now) }
        ensures faults { self.old.faults ≤ self.new.faults }

        // It fails exactly where it is to, unless it finds no memory.
        ensures fails { result ≢ StoreAnswer.Memory → (result ≡ StoreAnswer.Failed ↔ IsListed self.old) }
        ensures after { self.new ≡ after_put self.old name.now bytes.now result }
    {
        let is_listed = self.is_listed();
        let told = self.told();
        if self.tell_put(name, bytes).is_err() {
            return StoreAnswer::Memory;
        }
        if is_listed {
            self.fail();
            return StoreAnswer::Failed;
        }
        self.keep(name, bytes, told)
    }

    #[tactic(auto, using(crate::proofs::Told::taken_back))]
    fn get(&mut self, name: &str, limit: usize, into: &mut Vec<u8>) -> ReadAnswer
        requires empty { into.old.items ≡ [] }
        requires limit { limit ≤ 67108864 }

        ensures bytes { IsReadAs (Some self.old.kept) name.now limit result into.new.items }
        ensures failed { result ≡ ReadAnswer.Failed → Rose self.old.faults self.new.faults }

        ensures kept { Some self.new.kept ≡ Some self.old.kept }
        ensures uses { Some self.new.uses ≡ grown (Some self.old.uses) (get_uses result name.now) }
        ensures faults { self.old.faults ≤ self.new.faults }

        // It fails exactly where it is to, unless it finds no memory.
        ensures fails { result ≢ ReadAnswer.Memory →
            (result ≡ ReadAnswer.Failed ↔ IsGetToFail self.old name.now) }
        ensures after { self.new ≡ after_get self.old name.now result }
    {
        let is_listed = self.is_listed();
        let told = self.told();
        if self.tell_get(name).is_err() {
            return ReadAnswer::Memory;
        }
        if is_listed {
            self.fail();
            return ReadAnswer::Failed;
        }
        let answer = self.give(name, limit, into, told);
        if answer == ReadAnswer::Failed {
            self.fail();
        }
        answer
    }
}
