//! Where the files of stores are.

ghost use Rattle.std.specs.Prelude.{◌≡◌, ℕ, Bool, List, false, ⊤, IfOk, IfErr};
ghost use Rattle.sqlite.specs.Held.{Held};
ghost use Rattle.store_faults.specs.declared.store_fault.StoreFault.{StoreFault as StoreFaultOf};

use office_store::StoreFault;
use sqlite::{Alter, Connection, Error, ErrorCode, File, FileStore, Unknown};
use std::fs;
use store_sql::connect_at;

/// What looks for the file of a store, and connects to it once: a connection uses it up.
pub trait StoreFiles<S: Alter + Drop> {
    // It tells of a path whether there is a file.
    ghost finds: { Self → List ℕ → Bool → Type 0 };

    // It cannot look for the file of a path, or not connect to it, and this is why.
    ghost refuses: { Self → List ℕ → StoreFaultOf → Type 0 };

    // It connects a path so.
    ghost connects: { Self → List ℕ → Held S → Type 0 };

    /// Whether there is a file at a path.
    fn has_file(&self, path: &str) -> Result<bool, StoreFault>
        ensures found { IfOk result (finds self.now path.now) }
        ensures refused { IfErr result (refuses self.now path.now) };

    /// A connection to the file of a path, which is made where it is not there. It is the only one.
    fn connect(self, path: &str) -> Result<Connection<S>, StoreFault>
        ensures connected { IfOk result (connects self path.now) }
        ensures alone { IfOk result (λ conn. conn.in_transaction ≡ false) }
        ensures refused { IfErr result (refuses self path.now) };
}

/// The files of this machine. No contract can say what they hold.
#[derive(Drop)]
pub struct MachineFiles<'a>(pub &'a HostRuntime);

impl StoreFiles<FileStore<File>> for MachineFiles<'_> {
    ghost finds = { λ _ _ _. ⊤ };

    ghost refuses = { λ _ _ _. ⊤ };

    ghost connects = { λ _ _ _. ⊤ };

    fn has_file(&self, path: &str) -> Result<bool, StoreFault> {
        match fs::exists(self.0, path) {
            Ok(there) => Ok(there),
            Err(_) => Err(StoreFault::Store(Error::SqliteFailure(ErrorCode::CannotOpen))),
        }
    }

    fn connect(self, path: &str) -> Result<Connection<FileStore<File>>, StoreFault> {
        Ok(connect_at(self.0, path, Unknown)?)
    }
}
