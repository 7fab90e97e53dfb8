//! What a modify, a query and a destroy ask of their object.

ghost use Rattle.std.specs.Prelude.{◌≡◌, ◌∷◌, [], not};
ghost use Rattle.std.specs.Result.{result_err};
ghost use Rattle.cap_table.specs.Statuses.{no_object, busy};
ghost use Rattle.cap_table.specs.Verdicts.{first_verdict};

use cap_table::Verdict;

/// Whether the object is held.
pub(crate) fn check_held(is_held: bool) -> Result<(), Verdict>
    ensures { result_err result ≡ first_verdict ((not is_held, no_object) ∷ []) }
{
    if is_held {
        Ok(())
    } else {
        Err(Verdict::NO_OBJECT)
    }
}

/// Whether no rule names the object.
pub(crate) fn check_unnamed(is_named: bool) -> Result<(), Verdict>
    ensures { result_err result ≡ first_verdict ((is_named, busy) ∷ []) }
{
    if is_named { Err(Verdict::BUSY) } else { Ok(()) }
}
