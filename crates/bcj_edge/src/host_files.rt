// The host's files.
ghost use Rattle.std.specs.Prelude.{◌≡◌, ◌≤◌, length, None, IfOk};
ghost use Rattle.bcj_edge.specs.Causes.{raised};
ghost use Rattle.bcj_edge.specs.Host.{no_faults, after_stop};

use crate::byte_list::Bytes;
use crate::sinks::Failed;
use crate::store::{Files, ReadStop, WriteStop};
use crate::transfer::{read_whole, write_whole};
use std::alloc::Global;
use std::fs;
use std::marker::Model;

/// The files of the host. What they hold isn't told.
#[derive(Drop)]
pub struct HostFiles<'a, R: std::rt::Files> {
    rt: &'a R,
    read_faults: u64,
    absents: u64,
    overs: u64,
    write_faults: u64,
}

impl<'a, R: std::rt::Files> Model for HostFiles<'a, R> {
    ghost use Rattle.bcj_edge.specs.Host.{Faults, faults_code};

    ghost Value = { Faults };

    ghost coded = { faults_code };

    ghost view = { λ s. record {
      read_faults = s.read_faults;
      absents = s.absents;
      overs = s.overs;
      write_faults = s.write_faults;
    } };
}

fn read_file<R: std::rt::Files>(
    rt: &R,
    alloc: Global,
    name: &str,
    limit: u32,
) -> Result<Bytes, ReadStop>
    ensures { IfOk result (λ bytes. length bytes ≤ limit) }
{
    match fs::open(rt, name) {
        Ok(file) => read_whole(alloc, file, limit),
        Err(_) => Err(ReadStop::Absent),
    }
}

fn write_file<R: std::rt::Files>(rt: &R, name: &str, bytes: &[u8]) -> Result<(), Failed> {
    match fs::create(rt, name) {
        Ok(mut file) => write_whole(&mut file, bytes),
        Err(_) => Err(Failed),
    }
}

impl<'a, R: std::rt::Files> HostFiles<'a, R> {
    pub fn new(rt: &'a R) -> HostFiles<'a, R>
        ensures { result ≡ no_faults }
    {
        HostFiles {
            rt,
            read_faults: 0,
            absents: 0,
            overs: 0,
            write_faults: 0,
        }
    }

    fn count_stop(&mut self, stop: &ReadStop)
        ensures after { self.new ≡ after_stop self.old stop.now }
        ensures read_later { self.old.read_faults ≤ self.new.read_faults }
        ensures absents_later { self.old.absents ≤ self.new.absents }
        ensures overs_later { self.old.overs ≤ self.new.overs }
    {
        match stop {
            ReadStop::Failed => self.read_faults = self.read_faults.saturating_add(1),
            ReadStop::TooLong => self.overs = self.overs.saturating_add(1),
            ReadStop::NoMemory => {}
            ReadStop::Absent => self.absents = self.absents.saturating_add(1),
        }
    }
}

impl<'a, R: std::rt::Files> Files for HostFiles<'a, R> {
    ghost held = { λ _. None };

    ghost read_faults = { λ s. s.read_faults };

    ghost absents = { λ s. s.absents };

    ghost overs = { λ s. s.overs };

    ghost write_faults = { λ s. s.write_faults };

    /// A name that can't be opened is absent. One that can be opened and not read, as that of a
    /// directory, failed.
    fn read(&mut self, alloc: Global, name: &str, limit: u32) -> Result<Bytes, ReadStop> {
        let result = read_file(self.rt, alloc, name, limit);
        if let Err(stop) = &result {
            self.count_stop(stop);
        }
        result
    }

    fn write(&mut self, name: &str, bytes: &[u8]) -> Result<(), WriteStop> {
        match write_file(self.rt, name, bytes) {
            Ok(()) => Ok(()),
            Err(Failed) => {
                self.write_faults = self.write_faults.saturating_add(1);
                Err(WriteStop::Failed)
            }
        }
    }
}
