//! A store in memory.

ghost use Rattle.std.specs.Prelude.{◌≡◌, ℕ, List, None, IfOk};
ghost use Rattle.sqlite.specs.Held.{state};
ghost use Rattle.sqlite.specs.Steps.{over_memory};
ghost use Rattle.lab_store.specs.StoreWorlds.{store_world};

use lab_store::{Store, Unopened};
use lab_store_files::FileFault;
use sqlite::{Connection, MemStore};
use std::alloc::Global;

/// Returns a store in memory, without laboratories.
///
/// # Errors
/// The store failed, or memory ran out.
pub fn store_in_memory(alloc: Global) -> Result<Store<MemStore>, FileFault>
    ensures nobody { IfOk result (λ store. (code : List ℕ) →
        (store_world over_memory store).meaning code ≡ None) }
    ensures honest { IfOk result (λ store. (store_world over_memory store).is_honest) }
    ensures reached { IfOk result (λ store. (store_world over_memory store).is_reached) }
{
    let Ok(conn) = Connection::open_in_memory(alloc) else {
        return Err(FileFault::Memory);
    };
    match Store::create(alloc, conn) {
        Ok(store) => Ok(store),
        Err(Unopened { fault, conn: _ }) => Err(fault),
    }
}
