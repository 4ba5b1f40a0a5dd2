//! Where calls go.

use a64_base::{ExternalName, Reg};

/// Where a call goes.
#[derive(Clone, Copy, Debug)]
pub enum Callee {
    /// To a symbol, which a linker resolves.
    Symbol(ExternalName),
    /// To the address in a register.
    Address(Reg),
}
