//! Laws of the definitions. Each call does nothing: its contract is the law.

ghost use Rattle.std.specs.Prelude.{◌≤◌, length};
ghost use Rattle.admin_wire.specs.declared.command.Command.{Command};
ghost use Rattle.admin_wire.specs.Codes.{most_command_bytes};
ghost use Rattle.admin_wire.specs.LaidOut.{HasLayout, HasDistinctTypes};
ghost use Rattle.admin_wire.specs.Layouts.{command_bytes};

/// A command over selectors of distinct types isn't longer than `CommandBytes` can be.
pub fn distinct_selectors_fit()
    ensures { (command : Command) → HasLayout command → HasDistinctTypes command
        → length (command_bytes command) ≤ most_command_bytes }
{}
