//! Why a table can't be compiled for a device.

ghost use Rattle.std.specs.Prelude.{◌≡◌};
ghost use Rattle.ntuple_compile.specs.declared.error.CompileErr.TheVariants as errors;

use ff_headers::Kind;
use std::alloc::AllocError;

/// Why a table has no commands for a device.
#[derive(Clone, Copy, Debug, PartialEq, Eq)]
pub enum CompileErr {
    /// A selector of the spec at this location can't be asked for: it stands past the limit of selectors per
    /// classifier, or the device has no selector of its kind, or none that allows its mask.
    Unsupported(u16, Kind),
    /// There are more specs, so many, than the device's rules.
    Rules(u32),
    /// There are more classifiers, so many, than the device's.
    Classifiers(u32),
    /// There are more specs, so many, than the priorities of all the device's groups together.
    Levels(u32),
    /// There are more specs, so many, than the rules that all the device's groups can have together.
    PerGroup(u32),
    /// No memory was left.
    Memory,
}

impl From<AllocError> for CompileErr {
    ghost from_gives = { λ _ err. err ≡ errors.Memory };

    fn from(_: AllocError) -> CompileErr {
        CompileErr::Memory
    }
}
