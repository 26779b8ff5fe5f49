//! A sink in memory, which fails where it is told to and where it is full.
ghost use Rattle.std.specs.Prelude.{◌≡◌, ◌+◌, ◌-◌, ◌<◌, ◌≤◌, ◌^◌, ◌++◌, ℕ, List, [], length, take, Some, IfOk, IfErr, OnOk, OnErr, vec_len, vec_capacity};
ghost use Rattle.hk_io.specs.Faults.{Rose};
ghost use Rattle.hk_io.specs.Shown.{shown_with, sent_of};
ghost use Rattle.hk_io.specs.Memory.{put_answer, after_put};

use crate::fault::SinkFault;
use crate::lists::PutList;
use crate::sink::Sink;
use std::alloc::{AllocError, Global};

/// Output in memory. Its puts are counted from 1. A listed one fails after it has taken as many bytes as
/// are listed for it, and one that does not fit fails after it has taken what fits.
#[derive(Drop)]
pub struct MemSink {
    text: Vec<u8>,
    room: usize,
    failing: PutList,
    calls: u64,
    faults: u64,
    ghost reserved: { room ≤ vec_capacity text },
    ghost within: { vec_len text ≤ room },
}

impl MemSink {
    ghost use Rattle.hk_io.specs.SinkStates.{sink_state};

    /// A sink with room for so many bytes that fails at these puts.
    pub fn with_room(alloc: Global, room: usize, failing: PutList) -> Result<MemSink, AllocError>
        ensures { IfOk result (λ sink. sink_state sink ≡
            record { text = []; room = room; failing = failing; calls = 0; faults = 0 }) }
    {
        Ok(MemSink {
            text: Vec::with_capacity(alloc, room)?,
            room,
            failing,
            calls: 0,
            faults: 0,
        })
    }

    /// What is shown.
    pub fn bytes(&self) -> &[u8]
        ensures { result.now ≡ (sink_state self.now).text }
    {
        &self.text
    }
}

// Adds bytes for which there is room.
fn append(text: &mut Vec<u8>, bytes: &[u8])
    requires { vec_len text.old + length bytes.now ≤ vec_capacity text.old }
    ensures text { text.new.items ≡ text.old.items ++ bytes.now }
    ensures len { vec_len text.new ≡ vec_len text.old + length bytes.now }
    ensures capacity { vec_capacity text.old ≤ vec_capacity text.new }
{
    let _ = text.extend_from_slice(bytes);
}

impl Sink for MemSink {
    ghost use Rattle.hk_io.specs.SinkStates.{sink_state};

    ghost shown = { λ s. Some (sink_state s).text };

    ghost faults = { λ s. (sink_state s).faults };

    fn put(&mut self, bytes: &[u8]) -> Result<(), SinkFault>
        ensures whole { OnOk result ((sink_state self.new).text ≡ (sink_state self.old).text ++ bytes.now) }
        ensures sent { IfErr result (λ fault.
            (sink_state self.new).text ≡ (sink_state self.old).text ++ take (sent_of fault) bytes.now) }
        ensures within { IfErr result (λ fault. sent_of fault ≤ length bytes.now) }
        ensures failed { OnErr result (Rose (sink_state self.old).faults (sink_state self.new).faults) }
        ensures still { OnOk result ((sink_state self.new).faults ≡ (sink_state self.old).faults) }
        ensures later { (sink_state self.old).faults ≤ (sink_state self.new).faults }
        ensures fits { (sink_state self.new).faults < 2 ^ 64 }
        ensures answer { result ≡ put_answer (sink_state self.old) bytes.now }
        ensures state { sink_state self.new ≡ after_put (sink_state self.old) bytes.now }
    {
        self.calls = self.calls.saturating_add(1);
        let faults = self.faults;
        let listed = self.failing.bytes_at(self.calls);
        let free = self.room - self.text.len();
        let taken = bytes.len().min(free).min(listed.unwrap_or(bytes.len()));
        append(&mut self.text, &bytes[..taken]);
        if listed.is_some() || free < bytes.len() {
            self.faults = faults.saturating_add(1);
            return Err(SinkFault::Failed { sent: taken });
        }
        Ok(())
    }
}
