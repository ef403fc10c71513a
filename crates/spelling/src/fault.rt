//! Why bytes are not read.

ghost use Rattle.std.specs.Prelude.{◌≡◌};
ghost use Rattle.cov_base.specs.declared.failure.Failure.TheVariants.{Fault};
ghost use Rattle.spelling.specs.declared.fault.LayerFault.TheVariants as layer_fault;

use cov_base::Failure;

/// The bytes end before the value does.
#[derive(Clone, Copy, Debug, PartialEq, Eq)]
pub struct Short;

impl From<Short> for Failure<Short> {
    ghost from_gives = { λ short failure. failure ≡ Fault short };

    fn from(short: Short) -> Self {
        Failure::Fault(short)
    }
}

/// What is wrong with the layers that all files share, in the order of the checks.
#[derive(Clone, Copy, Debug, PartialEq, Eq)]
pub enum LayerFault {
    /// The bytes end too early: there are fewer than 8, or what they hold or the digest passes
    /// their end.
    Short,
    /// The file doesn't begin with its magic.
    Magic,
    /// The version isn't known.
    Version,
    /// Bytes follow the digest.
    Long,
    /// The digest isn't that of the bytes before it.
    Damaged,
}

impl From<Short> for LayerFault {
    ghost from_gives = { λ short fault. fault ≡ layer_fault.Short };

    fn from(_short: Short) -> Self {
        LayerFault::Short
    }
}

impl From<LayerFault> for Failure<LayerFault> {
    ghost from_gives = { λ fault failure. failure ≡ Fault fault };

    fn from(fault: LayerFault) -> Self {
        Failure::Fault(fault)
    }
}
