//! Why a table can't be compiled for a device.

ghost use Rattle.std.specs.Prelude.{◌≡◌, All};
ghost use Rattle.cap_table.specs.Caps.{AtMost, greatest_limits};
ghost use Rattle.ntuple_compile.specs.Compiled.{count_faults, first_fault, specs_fault, unsupported_kind};
ghost use Rattle.ntuple_compile.specs.Selected.{AreGiven};

use crate::error::CompileErr;
use crate::selected::selectors_of;
use cap_table::{DeviceCaps, is_supported};
use ff_headers::{Kind, Limits};
use ntuple_text::Spec;

/// The first spec that has a selector which the device's capability doesn't have, with the first such selector's kind.
pub(crate) fn specs_fault(caps: &DeviceCaps, specs: &[Spec]) -> Option<CompileErr>
    requires { All AreGiven specs.now }
    ensures { result ≡ specs_fault caps.now specs.now }
{
    for spec in specs {
        if let Some(kind) = unsupported_kind(caps, spec) {
            return Some(CompileErr::Unsupported(spec.loc, kind));
        }
    }
    None
}

/// The kind of the first selector of a spec that the device's capability doesn't have.
fn unsupported_kind(caps: &DeviceCaps, spec: &Spec) -> Option<Kind>
    requires { AreGiven spec.now }
    ensures { result ≡ unsupported_kind caps.now spec.now }
{
    let limit = caps.limits().selectors;
    let selectors = selectors_of(spec);
    for (place, selector) in selectors.as_slice().iter().enumerate() {
        if !is_supported(limit, caps.selectors(), place, selector) {
            return Some(selector.kind());
        }
    }
    None
}

/// What is wrong with the numbers of rules and of classifiers.
pub(crate) fn count_fault(limits: &Limits, rules: u32, classifiers: u32) -> Option<CompileErr>
    requires { AtMost limits.now greatest_limits }
    ensures { result ≡ first_fault (count_faults limits.now rules classifiers) }
{
    if rules > limits.rules {
        return Some(CompileErr::Rules(rules));
    }
    if classifiers > limits.classifiers {
        return Some(CompileErr::Classifiers(classifiers));
    }
    if rules > limits.groups * (u32::from(limits.last_priority) + 1) {
        return Some(CompileErr::Levels(rules));
    }
    if rules > limits.groups * limits.per_group {
        return Some(CompileErr::PerGroup(rules));
    }
    None
}
