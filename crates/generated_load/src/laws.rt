//! Laws of the definitions. Each call does nothing: its contract is the law.

ghost use Rattle.std.specs.Prelude.{◌≡◌, ℕ, Ok};
ghost use Rattle.ntuple_compile.specs.Compiled.{compiled, creates_of, objects_of};
ghost use Rattle.generated_load.specs.DrawnTables.{drawn_specs, drawn_table, load_caps};

/// The device of a load can have each table that is drawn: it has the selectors, and room for the rules.
pub fn drawn_tables_are_compiled()
    ensures { (seed : ℕ) → compiled (drawn_table seed) load_caps
        ≡ Ok (creates_of (objects_of load_caps.limits (drawn_specs seed).1)) }
{}
