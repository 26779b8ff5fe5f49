//! Output in pieces.
ghost use Rattle.std.specs.Prelude.{◌≡◌, ◌<◌, ◌≤◌, ◌^◌, ℕ, List, Option, length, take, OnOk, OnErr, IfErr};
ghost use Rattle.hk_io.specs.Faults.{Rose};
ghost use Rattle.hk_io.specs.Shown.{shown_with, sent_of};

use crate::fault::SinkFault;

/// Output that grows at its end.
pub trait Sink {
    /// All bytes put so far, where the sink tells of them.
    ghost shown: { Self → Option (List ℕ) };

    /// How often the outside has failed.
    ghost faults: { Self → ℕ };

    /// Puts a piece behind what is shown. The count rises where the outside fails, and nowhere else. It takes no memory.
    fn put(&mut self, bytes: &[u8]) -> Result<(), SinkFault>
        ensures whole { OnOk result (shown self.new ≡ shown_with (shown self.old) bytes.now) }
        ensures sent { IfErr result (λ fault.
            shown self.new ≡ shown_with (shown self.old) (take (sent_of fault) bytes.now)) }
        ensures within { IfErr result (λ fault. sent_of fault ≤ length bytes.now) }
        ensures failed { OnErr result (Rose (faults self.old) (faults self.new)) }
        ensures still { OnOk result (faults self.new ≡ faults self.old) }
        ensures later { faults self.old ≤ faults self.new }
        ensures fits { faults self.new < 2 ^ 64 };
}
