//! Laws of the definitions. Each call does nothing: its contract is the law.

ghost use Rattle.std.specs.Prelude.{◌≡◌, ◌<◌, ◌⊎◌, ℕ, List, None, Ok, Err};
ghost use Rattle.byte_numbers.specs.Bytes.{IsBytes};
ghost use Rattle.split_queue.specs.DeviceEnds.{as_pop_answer, pop_answer};
ghost use Rattle.split_queue.specs.Rings.{available_idx};
ghost use Rattle.split_queue.specs.declared.queue_place.Place.{Place};
ghost use Rattle.split_queue.specs.declared.error.RingErr.TheVariants as ring_faults;
ghost use Rattle.vnff_run.specs.Drain.{IsDrainable, chain_at, memory_behind};
ghost use Rattle.vnff_run.specs.Grammar.{script_of};
ghost use Rattle.vnff_run.specs.ScriptTexts.{script_text};
ghost use Rattle.vnff_run.specs.Spellable.{IsSpellable};
ghost use Rattle.vnff_run.specs.declared.error.Reason.{Reason};
ghost use Rattle.vnff_run.specs.declared.script.Script.{Script};

/// A text spells a script or has a first fault, not both, and neither twice.
pub fn each_text_has_one_answer()
    ensures some { (text : List ℕ) → ((script : Script) × (script_of text ≡ Ok script))
        ⊎ ((fault : ℕ × Reason) × (script_of text ≡ Err fault)) }
    ensures one_script { (text : List ℕ) (a b : Script) → script_of text ≡ Ok a → script_of text ≡ Ok b → a ≡ b }
    ensures one_fault { (text : List ℕ) (a b : ℕ × Reason) → script_of text ≡ Err a → script_of text ≡ Err b → a ≡ b }
    ensures not_both { (text : List ℕ) (script : Script) (fault : ℕ × Reason) → script_of text ≡ Ok script
        → script_of text ≡ Err fault → ⊥ }
{}

/// The canonical text of a script spells that script.
pub fn canonical_texts_are_read_back()
    ensures { (script : Script) → IsSpellable script → script_of (script_text script) ≡ Ok script }
{}

/// What a drain has at an index is what a pop answers there, in the memory that the chains before it left; behind the
/// last one the ring is empty. An available index that is more than the size is the first pop's fault. So no chain is
/// left out.
pub fn drains_have_what_is_popped()
    ensures chains { (image : List ℕ) (place : Place) (index : ℕ) → IsDrainable image place
        → index < available_idx image place
        → pop_answer (memory_behind image place index) place index ≡ as_pop_answer (chain_at image place index) }
    ensures last { (image : List ℕ) (place : Place) → IsDrainable image place → let idx = available_idx image place in
        pop_answer (memory_behind image place idx) place idx ≡ Ok None }
    ensures jump { (image : List ℕ) (place : Place) → IsBytes image → place.size < available_idx image place
        → pop_answer image place 0 ≡ Err (ring_faults.IdxJump (available_idx image place)) }
{}
