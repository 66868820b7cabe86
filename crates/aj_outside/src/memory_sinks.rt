//! A sink in memory.
ghost use Rattle.std.specs.Prelude.{◌≡◌, ◌≢◌, ◌↔◌, ◌++◌, ◌+◌, [], OnOk, OnErr, option_map, Some};
ghost use Rattle.aj_outside.specs.Counts.{ComesWithRise};
ghost use Rattle.aj_outside.specs.Files.{AppendsPrefix};
ghost use Rattle.aj_outside.specs.Memory.{NextFails, one_more};

use crate::schedules::Schedule;
use crate::sinks::{Sink, SinkFault};
use std::marker::Model;

/// A sink that keeps its bytes in memory and tells them.
///
/// Chosen calls fail; a failing `put` appends nothing.
#[derive(Drop)]
pub struct MemSink {
    bytes: Vec<u8>,
    schedule: Schedule,
    faults: u64,
}

impl Model for MemSink {
    ghost use Rattle.std.specs.Prelude.{◌≤◌};
    ghost use Rattle.aj_outside.specs.Memory.{SinkState};

    ghost Value = { SinkState };

    ghost view = { λ sink. record {
      bytes = sink.bytes.items;
      failing = sink.schedule.failing.items;
      calls = sink.schedule.calls;
      faults = sink.faults;
    } };

    ghost invariant = { λ sink. sink.faults ≤ sink.schedule.calls };
}

impl MemSink {
    /// A sink to which nothing was written, whose calls of these numbers are to fail, counted from 1.
    pub fn new(failing: Vec<u64>) -> MemSink
        ensures made { result ≡ record { bytes = []; failing = failing.items; calls = 0; faults = 0 } }
    {
        MemSink {
            bytes: Vec::new(*failing.allocator()),
            schedule: Schedule::new(failing),
            faults: 0,
        }
    }

    /// What was written.
    pub fn bytes(&self) -> &[u8]
        ensures bytes { result.now ≡ self.now.bytes }
    {
        self.bytes.as_slice()
    }
}

impl Sink for MemSink {
    ghost written = { λ sink. Some sink.bytes };

    ghost faults = { λ sink. sink.faults };

    #[tactic(auto, using(crate::specs::FileLaws::AppendsPrefix_none))]
    fn put(&mut self, bytes: &[u8]) -> Result<(), SinkFault>
        ensures appended { OnOk result (Some self.new.bytes ≡ option_map (λ before. before ++ bytes.now) (Some self.old.bytes)) }
        ensures refused { OnErr result (AppendsPrefix bytes.now (Some self.old.bytes) (Some self.new.bytes)) }
        ensures failed { ComesWithRise (result ≡ Err SinkFault.Failed) self.old.faults self.new.faults }
        ensures nothing { bytes.now ≡ [] → (result ≡ Ok tt) × (Some self.new.bytes ≡ Some self.old.bytes) × (self.new.faults ≡ self.old.faults) }
        ensures fails { (result ≡ Err SinkFault.Failed) ↔ ((bytes.now ≢ []) × NextFails self.old.failing self.old.calls) }
        ensures never { self.old.failing ≡ [] → result ≢ Err SinkFault.Failed }
        ensures unchanged { OnErr result (self.new.bytes ≡ self.old.bytes) }
        ensures schedule { (self.new.failing ≡ self.old.failing) × (self.new.calls ≡ one_more self.old.calls) }
    {
        let fails = self.schedule.next_fails();
        if bytes.is_empty() {
            return Ok(());
        }
        if fails {
            self.faults += 1;
            return Err(SinkFault::Failed);
        }
        if self.bytes.extend_from_slice(bytes).is_err() {
            return Err(SinkFault::Memory);
        }
        Ok(())
    }
}
