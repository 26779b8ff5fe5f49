//! Why a line of a certificate is refused.

/// The least reason against a line.
#[derive(Clone, Copy, PartialEq, Eq, Debug)]
pub enum CertReason {
    /// The line is not spelled, or is out of place.
    Q1,
    /// A number is out of its range.
    Q2,
    /// A name or an obligation is not the next.
    Q3,
}
