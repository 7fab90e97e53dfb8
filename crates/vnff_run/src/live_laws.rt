//! Laws of live runs. Each call does nothing: its contract is the law.

ghost use Rattle.std.specs.Prelude.{◌≡◌, ℕ, ◌+◌, ◌<◌, List, ◌++◌, Some, length, slice_get, take};
ghost use Rattle.byte_numbers.specs.Bytes.{IsBytes};
ghost use Rattle.ff_headers.specs.Changes.{after};
ghost use Rattle.ff_headers.specs.Frames.{headers_of};
ghost use Rattle.ff_headers.specs.Places.{action_of};
ghost use Rattle.cap_table.specs.Caps.{CapsParts};
ghost use Rattle.cap_table.specs.States.{start_state};
ghost use Rattle.cap_table.specs.declared.start.Start.TheVariants as starts;
ghost use Rattle.ntuple_text.specs.TableMaps.{TableMap};
ghost use Rattle.ntuple_compile.specs.Acceptance.{ok_reply};
ghost use Rattle.ntuple_compile.specs.SpecFits.{table_action};
ghost use Rattle.steer.specs.LiveCommands.{AreAnswered};
ghost use Rattle.steer.specs.LiveRuns.{accepted_changes, told_changes};
ghost use Rattle.steer.specs.declared.admin_line.AdminLine.{AdminLine};
ghost use Rattle.vnff_run.specs.LiveOrders.{CarryTable, HaveMemory};
ghost use Rattle.vnff_run.specs.Plans.{IsText, Plan};

/// Each plan has a text. That of a live run is, if no other, the one in which all commands come before any frame.
pub fn plans_have_texts()
    ensures { (plan : Plan) → (text : List ℕ) × IsText plan text }
{}

/// Let the first commands of a live run carry a table that is compiled for the device, which starts ready. Those before
/// the first that is refused for want of memory are answered with OK. Where none of them is refused so, the objects
/// after the changes that they made do with every frame what the table does.
pub fn live_runs_carry_tables()
    ensures obeyed { (caps : CapsParts) (table : TableMap) (lines more : List AdminLine) (replies : List (List ℕ))
        (k : ℕ) → CarryTable caps table lines → AreAnswered (start_state caps starts.Ready) (lines ++ more) replies
        → k < length lines → HaveMemory (take (k + 1) replies) → slice_get replies k ≡ Some ok_reply }
    ensures acts { (caps : CapsParts) (table : TableMap) (lines more : List AdminLine) (replies : List (List ℕ))
        (frame : List ℕ) → CarryTable caps table lines
        → AreAnswered (start_state caps starts.Ready) (lines ++ more) replies → HaveMemory (take (length lines) replies)
        → IsBytes frame → let changes = accepted_changes caps starts.Ready (lines ++ more) replies in
        let made = told_changes caps starts.Ready (lines ++ more) replies (length lines) in
        action_of (after caps.limits changes made) (headers_of frame) ≡ table_action table (headers_of frame) }
{}
