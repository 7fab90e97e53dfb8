//! Laws of the definitions. Each call does nothing: its contract is the law.

ghost use Rattle.std.specs.Prelude.{◌≡◌, ◌↔◌, ◌⊎◌, ℕ, List, Some, Ok, IsTrue, All};
ghost use Rattle.byte_numbers.specs.Bytes.{IsBytes};
ghost use Rattle.ff_headers.specs.Frames.{HeaderBytes, headers_of};
ghost use Rattle.ff_headers.specs.Matching.{matches};
ghost use Rattle.ff_headers.specs.declared.rule.Action.TheVariants.{Default};
ghost use Rattle.admin_wire.specs.declared.command.Command.{Command};
ghost use Rattle.cap_table.specs.Caps.{CapsParts};
ghost use Rattle.ntuple_text.specs.Spellable.{IsSpellable, IsTable};
ghost use Rattle.ntuple_text.specs.TableMaps.{TableMap};
ghost use Rattle.ntuple_text.specs.declared.spec.Part.{Part};
ghost use Rattle.ntuple_text.specs.declared.spec.Spec.{Spec};
ghost use Rattle.ntuple_compile.specs.SpecFits.{AgreesWith, FitsFirst, NoneFits, action_for, agrees, spec_fits, table_action};
ghost use Rattle.ntuple_compile.specs.Selected.{key_for, selectors_of};
ghost use Rattle.ntuple_compile.specs.Compiled.{compiled};
ghost use Rattle.ntuple_compile.specs.Acceptance.{ActAs, AreAccepted, IsWritable};

/// A given field agrees with a number exactly where both have the same bit at each place that isn't skipped.
pub fn fields_agree_bit_by_bit()
    ensures { (part : Part) (number : ℕ) → IsTrue (agrees (Some part) number) ↔ AgreesWith part number }
{}

/// Of the specs that fit a frame the one at the least location acts; a frame that no spec fits gets the default. One of
/// these holds of each frame.
pub fn the_least_location_acts()
    ensures first { (table : TableMap) (headers : HeaderBytes) (loc : ℕ) (spec : Spec)
        → FitsFirst table headers loc spec → table_action table headers ≡ action_for spec.action }
    ensures none { (table : TableMap) (headers : HeaderBytes)
        → NoneFits table headers → table_action table headers ≡ Default }
    ensures one_holds { (table : TableMap) (headers : HeaderBytes)
        → NoneFits table headers ⊎ ((loc : ℕ) × (spec : Spec) × FitsFirst table headers loc spec) }
{}

/// A frame matches the selectors of a spec, with its key, exactly where it fits the spec: wherever a line can spell the
/// spec.
pub fn selectors_match_where_a_spec_fits()
    ensures { (spec : Spec) (pairs : ℕ) (frame : List ℕ) → IsSpellable pairs spec → IsBytes frame
        → matches (selectors_of spec) (key_for spec) (headers_of frame) ≡ spec_fits spec (headers_of frame) }
{}

/// A device that starts ready answers each command of a table that is compiled for it with OK, whatever bytes lay the
/// commands out.
pub fn compiled_commands_are_accepted()
    ensures { (table : TableMap) (caps : CapsParts) (commands : List Command) → IsTable table.pairs table.slots
        → table.pairs ≡ caps.pairs → compiled table caps ≡ Ok commands → AreAccepted caps commands }
{}

/// After these commands the device does with every frame what the table does.
pub fn compiled_commands_act_as_the_table()
    ensures { (table : TableMap) (caps : CapsParts) (commands : List Command) → IsTable table.pairs table.slots
        → table.pairs ≡ caps.pairs → compiled table caps ≡ Ok commands → ActAs caps commands table }
{}

/// Each of them has bytes, and no more than this project's driver writes.
pub fn compiled_commands_can_be_written()
    ensures { (table : TableMap) (caps : CapsParts) (commands : List Command) → compiled table caps ≡ Ok commands
        → All IsWritable commands }
{}
