//! What the top call answers.

use hk_cert::CertFault;
use hk_cnf::CnfFault;
use hk_seq::Seq;
use hk_verdict::{InitVerdict, Verdict};
use ir_ast::KernelFault;
use spec_ast::SpecFault;

/// Why a function is not run. It is printed as its name.
#[derive(Clone, Copy, Debug, PartialEq, Eq)]
pub enum CallReason {
    /// No function with a body has the name.
    A1,
    /// The function takes another number of arguments.
    A2,
    /// An argument is not below 2 to the power of its parameter's width, or stands for a pointer; or the result is a pointer.
    A3,
}

/// A function that is not run, and the word that is why, counted from 0: that of the function, or for a parameter that of the
/// argument that stands for it.
#[derive(Clone, Copy, Debug, PartialEq, Eq)]
pub struct CallFault {
    pub word: u32,
    pub reason: CallReason,
}

/// Why a call ended without its whole report. A word is counted from 0.
#[derive(Clone, Copy, Debug, PartialEq, Eq)]
pub enum TopFault {
    /// The words have no form.
    Usage,
    /// The file of this word could not be loaded.
    Read { word: u32 },
    /// The file of this word has more bytes than its limit.
    Long { word: u32 },
    /// The kernel text is refused.
    Kernel(KernelFault),
    /// The specification text is refused.
    Spec(SpecFault),
    /// The certificate is refused.
    Cert(CertFault),
    /// The clause file is refused.
    Cnf(CnfFault),
    /// The function is not run.
    Call(CallFault),
    /// Memory was refused before the first line.
    Memory,
    /// The output failed.
    Write,
}

/// The answer of the top call.
#[derive(Drop)]
pub struct Answer {
    /// The exit status.
    pub status: u8,
    /// What was decided of the initial memory.
    pub init: InitVerdict,
    /// One verdict for each handler in the order of the specification; after a failed put, up to the one whose line
    /// failed.
    pub verdicts: Seq<Verdict>,
    /// Why the call ended early.
    pub fault: Option<TopFault>,
}
