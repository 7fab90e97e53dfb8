//! Laws of the definitions. Each call does nothing: its contract is the law.

ghost use Rattle.std.specs.Prelude.{◌≡◌, List, length, fold};
ghost use Rattle.ff_headers.specs.Changes.{after, change_count, saturated};
ghost use Rattle.ff_headers.specs.declared.limits.Limits.{Limits};
ghost use Rattle.ff_headers.specs.declared.change.Change.{Change};
ghost use Rattle.matcher.specs.Tables.{no_changes, applied, tables_with};

use ff_headers::laws::each_change_is_counted;

/// Changes that are made one by one to new tables leave what the whole list of changes does, and their number.
pub fn changes_leave_what_their_list_does()
    ensures { (limits : Limits) (changes : List Change) → fold applied (no_changes limits) changes
        ≡ tables_with limits (after limits changes (length changes)) (saturated (change_count changes)) }
{
    each_change_is_counted();
}
