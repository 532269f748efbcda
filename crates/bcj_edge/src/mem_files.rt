// Files in memory.
ghost use Rattle.std.specs.Prelude.{◌≡◌, ◌≤◌, ◌<◌, ℕ, List, [], ◌∷◌, ◌++◌, true, false, length, Option, Some, None, option_map, OnOk, OnErr, IfOk, IsErrOf, IsOk};
ghost use Rattle.std.specs.Ordering.{nat_cmp};
ghost use Rattle.std.specs.Cmp.Lexicographic.{slice_cmp};
ghost use Rattle.std.specs.FinMap as map;
ghost use Rattle.bcj_edge.specs.Causes.{raised, Rose};
ghost use Rattle.bcj_edge.specs.Store.{Has, HasMore, Lacks, Sets, KeepsOthers};
ghost use Rattle.bcj_edge.specs.function.Entries.{entries_of};
ghost use Rattle.bcj_edge.specs.Memory.{no_files, next_fails, counted, after_read, after_write, after_failed_write};

use crate::byte_list::Bytes;
use crate::store::{Files, ReadStop, WriteStop};
use std::alloc::{AllocError, Global};
use std::collections::VecDeque;
use std::marker::Model;

#[derive(Drop)]
struct File {
    name: String,
    bytes: Bytes,
}

/// Files in memory, for tests. Reads and writes are counted from 1, and those whose numbers were named
/// fail.
#[derive(Drop)]
pub struct MemFiles {
    // The newest first, so that a search finds what was written last under a name.
    files: VecDeque<File>,
    named: Vec<u32>,
    calls: u64,
    read_faults: u64,
    absents: u64,
    overs: u64,
    write_faults: u64,
}

impl Model for MemFiles {
    ghost use Rattle.std.specs.FinMap as map;
    ghost use Rattle.bcj_edge.specs.Memory.{FilesState, files_code};

    ghost Value = { FilesState };

    ghost coded = { files_code };

    ghost use Rattle.bcj_edge.specs.function.Entries.{entries_of};

    ghost view = { λ s. record {
      files = map.from_entries (entries_of s.files.items);
      named = s.named.items;
      calls = s.calls;
      read_faults = s.read_faults;
      absents = s.absents;
      overs = s.overs;
      write_faults = s.write_faults;
    } };
}

fn find<'a>(files: &'a VecDeque<File>, name: &str) -> Option<&'a Bytes>
    ensures { option_map (λ b. b.now) result ≡ map.find (slice_cmp nat_cmp) name.now (entries_of files.now.items) }
{
    for file in files {
        if name == file.name.as_str() {
            return Some(&file.bytes);
        }
    }
    None
}

impl MemFiles {
    /// No files.
    pub fn new(alloc: Global) -> MemFiles
        ensures { result ≡ no_files }
    {
        MemFiles {
            files: VecDeque::new(alloc),
            named: Vec::new(alloc),
            calls: 0,
            read_faults: 0,
            absents: 0,
            overs: 0,
            write_faults: 0,
        }
    }

    /// Names a call that shall fail, by its number among the reads and writes, which count from 1.
    /// Refused, it changes nothing.
    pub fn fail(&mut self, call: u32) -> Result<(), AllocError>
        ensures ok { OnOk result (self.new ≡ record self.old { named = self.old.named ++ call ∷ [] }) }
        ensures err { OnErr result (self.new ≡ self.old) }
    {
        self.named.push(call)?;
        Ok(())
    }

    /// Puts a file there, which isn't counted as a call. Refused, it changes nothing.
    pub fn set(&mut self, name: &str, bytes: &[u8]) -> Result<(), AllocError>
        ensures ok { OnOk result (self.new ≡ record self.old { files = map.insert self.old.files name.now bytes.now }) }
        ensures err { OnErr result (self.new ≡ self.old) }
    {
        let alloc = *self.named.allocator();
        let name = String::from_str(alloc, name)?;
        let bytes = Bytes::of(Vec::from_slice(alloc, bytes)?);
        self.files.push_front(File { name, bytes })?;
        Ok(())
    }

    fn next_fails(&self) -> bool
        ensures { result ≡ next_fails self.now }
    {
        let call = self.calls.saturating_add(1);
        self.named.iter().any(|number| u64::from(*number) == call)
    }

    fn get(&self, name: &str) -> Option<&Bytes>
        ensures { option_map (λ b. b.now) result ≡ map.get self.now.files name.now }
    {
        find(&self.files, name)
    }

    fn count_call(&mut self)
        ensures { self.new ≡ counted self.old }
    {
        self.calls = self.calls.saturating_add(1);
    }
}

impl Files for MemFiles {
    ghost held = { λ s. Some s.files };

    ghost read_faults = { λ s. s.read_faults };

    ghost absents = { λ s. s.absents };

    ghost overs = { λ s. s.overs };

    ghost write_faults = { λ s. s.write_faults };

    fn read(&mut self, alloc: Global, name: &str, limit: u32) -> Result<Bytes, ReadStop>
        ensures ok { IfOk result (λ bytes. (length bytes ≤ limit) × Has (Some self.old.files) name.now bytes) }
        ensures failed { IsErrOf result ReadStop.Failed → Rose self.old.read_faults self.new.read_faults }
        ensures too_long { IsErrOf result ReadStop.TooLong
            → Rose self.old.overs self.new.overs × HasMore (Some self.old.files) name.now limit }
        ensures absent { IsErrOf result ReadStop.Absent
            → Rose self.old.absents self.new.absents × Lacks (Some self.old.files) name.now }
        ensures held { Some self.new.files ≡ Some self.old.files }
        ensures read_later { self.old.read_faults ≤ self.new.read_faults }
        ensures absents_later { self.old.absents ≤ self.new.absents }
        ensures overs_later { self.old.overs ≤ self.new.overs }
        ensures write_later { self.old.write_faults ≤ self.new.write_faults }
        ensures named { next_fails self.old ≡ true → IsErrOf result ReadStop.Failed }
        ensures only_named { next_fails self.old ≡ false → IsErrOf result ReadStop.Failed → ⊥ }
        ensures missing { next_fails self.old ≡ false → map.get self.old.files name.now ≡ None → IsErrOf result ReadStop.Absent }
        ensures longer { next_fails self.old ≡ false → (bytes : List ℕ) → map.get self.old.files name.now ≡ Some bytes → limit < length bytes → IsErrOf result ReadStop.TooLong }
        ensures after { self.new ≡ after_read self.old name.now limit }
    {
        let fails = self.next_fails();
        self.count_call();
        if fails {
            self.read_faults = self.read_faults.saturating_add(1);
            return Err(ReadStop::Failed);
        }
        let Some(file) = self.get(name) else {
            self.absents = self.absents.saturating_add(1);
            return Err(ReadStop::Absent);
        };
        let bytes = file.as_slice();
        if bytes.len() > limit as usize {
            self.overs = self.overs.saturating_add(1);
            return Err(ReadStop::TooLong);
        }
        match Vec::from_slice(alloc, bytes) {
            Ok(copy) => Ok(Bytes::of(copy)),
            Err(AllocError) => Err(ReadStop::NoMemory),
        }
    }

    fn write(&mut self, name: &str, bytes: &[u8]) -> Result<(), WriteStop>
        ensures ok { OnOk result (Sets (Some self.old.files) (Some self.new.files) name.now bytes.now) }
        ensures failed { IsErrOf result WriteStop.Failed
            → Rose self.old.write_faults self.new.write_faults × KeepsOthers (Some self.old.files) (Some self.new.files) name.now }
        ensures no_memory { IsErrOf result WriteStop.NoMemory
            → (Some self.new.files ≡ Some self.old.files) × (self.new.read_faults ≡ self.old.read_faults)
            × (self.new.absents ≡ self.old.absents) × (self.new.overs ≡ self.old.overs)
            × (self.new.write_faults ≡ self.old.write_faults) }
        ensures read_later { self.old.read_faults ≤ self.new.read_faults }
        ensures absents_later { self.old.absents ≤ self.new.absents }
        ensures overs_later { self.old.overs ≤ self.new.overs }
        ensures write_later { self.old.write_faults ≤ self.new.write_faults }
        ensures named { next_fails self.old ≡ true → IsErrOf result WriteStop.Failed }
        ensures only_named { next_fails self.old ≡ false → IsErrOf result WriteStop.Failed → ⊥ }
        ensures after_ok { OnOk result (self.new ≡ after_write self.old name.now bytes.now) }
        ensures after_failed { IsErrOf result WriteStop.Failed → self.new ≡ after_failed_write self.old }
        ensures after_refused { IsErrOf result WriteStop.NoMemory → self.new ≡ counted self.old }
    {
        let fails = self.next_fails();
        self.count_call();
        if fails {
            self.write_faults = self.write_faults.saturating_add(1);
            return Err(WriteStop::Failed);
        }
        match self.set(name, bytes) {
            Ok(()) => Ok(()),
            Err(AllocError) => Err(WriteStop::NoMemory),
        }
    }
}
