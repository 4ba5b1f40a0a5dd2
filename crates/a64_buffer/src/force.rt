//! Whether islands are forced.

/// Whether an island promotes its open branches of urgency 3 in any case (Cranelift's `ForceVeneers`).
/// Whether an island stands at all is its caller's choice.
#[derive(Clone, Copy, Debug)]
pub enum ForceVeneers {
    /// They get far veneers, all of them, only where some could else be out of reach, by a bound that may be
    /// early.
    No,
    /// They all get far veneers.
    Yes,
}
