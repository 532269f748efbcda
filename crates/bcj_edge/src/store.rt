// Files by name.
ghost use Rattle.std.specs.Prelude.{◌≡◌, ℕ, ◌≤◌, List, Option, length, IfOk, OnOk, IsErrOf};
ghost use Rattle.bcj_edge.specs.Causes.{Rose};
ghost use Rattle.bcj_edge.specs.Store.{Store, Has, HasMore, Lacks, Sets, KeepsOthers};

use crate::byte_list::Bytes;
use std::alloc::Global;
use thiserror::Error;

/// Why a file wasn't read.
#[derive(Debug, Drop, Error)]
pub enum ReadStop {
    /// It is there and couldn't be read.
    #[error("Failed")]
    Failed,
    /// It has more bytes than the limit.
    #[error("TooLong")]
    TooLong,
    /// There was no memory for its bytes.
    #[error("NoMemory")]
    NoMemory,
    /// It couldn't be opened.
    #[error("Absent")]
    Absent,
}

/// Why a file wasn't written.
#[derive(Debug, Drop, Error)]
pub enum WriteStop {
    /// It couldn't be written. Under its name there may be anything.
    #[error("Failed")]
    Failed,
    /// There was no memory, and nothing was written.
    #[error("NoMemory")]
    NoMemory,
}

/// Files, each read and written whole.
///
/// `held` is what each name has, where it is told. The other four count, and stand at the last value of
/// a `u64`: `read_faults` the reads that failed, `absents` the reads whose name couldn't be opened,
/// `overs` the reads that met more bytes than their limit, and `write_faults` the writes that failed.
pub trait Files {
    ghost held: { Self → Option Store };

    ghost read_faults: { Self → ℕ };

    ghost absents: { Self → ℕ };

    ghost overs: { Self → ℕ };

    ghost write_faults: { Self → ℕ };

    /// Gives the bytes of a file of at most `limit` bytes.
    fn read(&mut self, alloc: Global, name: &str, limit: u32) -> Result<Bytes, ReadStop>
        ensures ok { IfOk result (λ bytes. (length bytes ≤ limit) × Has (held self.old) name.now bytes) }
        ensures failed { IsErrOf result ReadStop.Failed → Rose (read_faults self.old) (read_faults self.new) }
        ensures too_long { IsErrOf result ReadStop.TooLong
            → Rose (overs self.old) (overs self.new) × HasMore (held self.old) name.now limit }
        ensures absent { IsErrOf result ReadStop.Absent
            → Rose (absents self.old) (absents self.new) × Lacks (held self.old) name.now }
        ensures held { held self.new ≡ held self.old }
        ensures read_later { read_faults self.old ≤ read_faults self.new }
        ensures absents_later { absents self.old ≤ absents self.new }
        ensures overs_later { overs self.old ≤ overs self.new }
        ensures write_later { write_faults self.old ≤ write_faults self.new };

    /// Gives a name these bytes, and leaves every other name as it was.
    fn write(&mut self, name: &str, bytes: &[u8]) -> Result<(), WriteStop>
        ensures ok { OnOk result (Sets (held self.old) (held self.new) name.now bytes.now) }
        ensures failed { IsErrOf result WriteStop.Failed
            → Rose (write_faults self.old) (write_faults self.new) × KeepsOthers (held self.old) (held self.new) name.now }
        ensures no_memory { IsErrOf result WriteStop.NoMemory
            → (held self.new ≡ held self.old) × (read_faults self.new ≡ read_faults self.old)
            × (absents self.new ≡ absents self.old) × (overs self.new ≡ overs self.old)
            × (write_faults self.new ≡ write_faults self.old) }
        ensures read_later { read_faults self.old ≤ read_faults self.new }
        ensures absents_later { absents self.old ≤ absents self.new }
        ensures overs_later { overs self.old ≤ overs self.new }
        ensures write_later { write_faults self.old ≤ write_faults self.new };
}
