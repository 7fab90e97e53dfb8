//! Laws of live runs. Each call does nothing: its contract is the law.

ghost use Rattle.std.specs.Prelude.{ℕ, List};
ghost use Rattle.cap_table.specs.Caps.{CapsParts};
ghost use Rattle.cap_table.specs.declared.start.Start.{Start};
ghost use Rattle.steer.specs.LiveRuns.{PacketLine, IsLiveRun};
ghost use Rattle.steer.specs.declared.admin_line.AdminLine.{AdminLine};

/// Any commands have a legal run over any frames: the one of a device that carries all commands out before any frame is
/// read, and whose memory never runs out.
pub fn legal_runs_exist()
    ensures { (caps : CapsParts) (start : Start) (commands : List AdminLine) (frames : List (List ℕ))
        (workers first : ℕ) → (replies : List (List ℕ)) × (lines : List PacketLine)
        × IsLiveRun caps start commands frames workers first replies lines }
{}
