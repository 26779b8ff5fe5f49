//! What a certificate says.

use hk_cert_text::Entry;
use hk_seq::Seq;

/// A certificate: an entry for each handler, in the order of the specification.
#[derive(Drop)]
pub struct Certificate {
    pub entries: Seq<Entry>,
}
