//! Standard output: the trusted edge.
ghost use Rattle.std.specs.Prelude.{◌≡◌, ◌<◌, ◌≤◌, ◌^◌, length, None, IfErr};
ghost use Rattle.hk_io.specs.Faults.{Rose};
ghost use Rattle.hk_io.specs.Shown.{sent_of};

use crate::fault::SinkFault;
use crate::sink::Sink;
use std::io::Write;

/// Standard output, unbuffered. It tells nothing of what is shown, and counts each fault of the system.
#[derive(Drop)]
pub struct StdSink {
    rt: HostRuntime,
    faults: u64,
}

impl StdSink {
    ghost use Rattle.hk_io.specs.SystemFaults.{sink_faults};

    /// The standard output of the program.
    pub fn new(rt: HostRuntime) -> StdSink
        ensures { sink_faults result ≡ 0 }
    {
        StdSink { rt, faults: 0 }
    }
}

// Writes a piece. Where the system fails, or takes nothing, it answers how many bytes it took before.
fn write_whole(rt: &HostRuntime, bytes: &[u8]) -> Result<(), usize>
    ensures { IfErr result (λ sent. sent ≤ length bytes.now) }
{
    let mut out = rt.stdout();
    let mut sent = 0;
    while sent < bytes.len() {
        match out.write(&bytes[sent..]) {
            Ok(count) if count > 0 => sent += count,
            _ => return Err(sent),
        }
    }
    Ok(())
}

impl Sink for StdSink {
    ghost use Rattle.hk_io.specs.SystemFaults.{sink_faults};

    ghost shown = { λ _. None };

    ghost faults = { sink_faults };

    fn put(&mut self, bytes: &[u8]) -> Result<(), SinkFault> {
        let faults = self.faults;
        if let Err(sent) = write_whole(&self.rt, bytes) {
            self.faults = faults.saturating_add(1);
            return Err(SinkFault::Failed { sent });
        }
        Ok(())
    }
}
