//! The script that a table is compiled to, put to an output.

ghost use Rattle.std.specs.Prelude.{◌≡◌, ◌∷◌, ◌++◌, All, codes};
ghost use Rattle.std.specs.Cmp.Lexicographic.{pointwise};
ghost use Rattle.std.specs.List.{flat_map};
ghost use Rattle.vnff_base.specs.Outputs.{Writes};
ghost use Rattle.cap_table.specs.Caps.{all_selectors};
ghost use Rattle.cap_table.specs.declared.start.Start.TheVariants as starts;
ghost use Rattle.ntuple_compile.specs.Acceptance.{IsWritable};
ghost use Rattle.ntuple_compile.specs.SpecFits.{specs_of};
ghost use Rattle.vnff_run.specs.CompileTexts.{command_line, comment_line, compile_text, device_text};
ghost use Rattle.vnff_run.specs.Programs.{IsProgrammable, device_numbers, selector_line, slot_line, spaced_number};
ghost use Rattle.vnff_run.specs.ScriptTexts.{device_words, is_selector, line_text, selector_lines};
ghost use Rattle.vnff_run.specs.SelectLines.{mode_word};

use crate::compiled::CompiledTable;
use crate::table_refusal::{header_word, put_number};
use admin_wire::{Command, put_command};
use cap_table::DeviceCaps;
use ff_headers::Selector;
use ntuple_text::{Spec, Table, put_spec};
use vnff_base::{Failed, Out, hex_put};

/// Writes the script of a compiled table.
#[tactic(auto, unfolding(crate::specs::CompileTexts::compile_text))]
pub(crate) fn put_script<O: Out>(out: &mut O, compiled: &CompiledTable) -> Result<(), Failed>
    requires { IsProgrammable compiled.now }
    ensures { Writes (O.state out.old) (O.state out.new) (compile_text compiled.now) result }
{
    put_device(out, &compiled.caps)?;
    put_comments(out, &compiled.table)?;
    put_commands(out, compiled.commands.as_slice())
}

/// Writes the lines of a device that starts ready.
fn put_device<O: Out>(out: &mut O, caps: &DeviceCaps) -> Result<(), Failed>
    ensures { Writes (O.state out.old) (O.state out.new) (device_text caps.now) result }
{
    out.put(b"vnff 1\n")?;
    put_device_line(out, caps)?;
    put_selectors(out, caps)
}

/// Writes the line of a device's queue pairs and limits.
fn put_device_line<O: Out>(out: &mut O, caps: &DeviceCaps) -> Result<(), Failed>
    ensures { Writes (O.state out.old) (O.state out.new) (line_text (device_words caps.now starts.Ready)) result }
{
    out.put(b"device")?;
    put_numbers(out, &device_numbers(caps))?;
    out.put(b" ready\n")
}

/// The numbers of a device's line, in its order.
fn device_numbers(caps: &DeviceCaps) -> [u32; 7]
    ensures { result ≡ device_numbers caps.now }
{
    let limits = caps.limits();
    [
        u32::from(caps.pairs()),
        limits.groups,
        limits.classifiers,
        limits.rules,
        limits.per_group,
        u32::from(limits.last_priority),
        u32::from(limits.selectors),
    ]
}

/// Writes numbers, each behind a blank.
fn put_numbers<O: Out>(out: &mut O, numbers: &[u32]) -> Result<(), Failed>
    ensures { Writes (O.state out.old) (O.state out.new) (flat_map spaced_number numbers.now) result }
{
    for number in numbers {
        put_next_number(out, *number)?;
    }
    Ok(())
}

/// Writes a blank and a number.
fn put_next_number<O: Out>(out: &mut O, number: u32) -> Result<(), Failed>
    ensures { Writes (O.state out.old) (O.state out.new) (spaced_number number) result }
{
    out.put(b" ")?;
    put_number(out, u64::from(number))
}

/// Writes the lines of selectors, unless they are those that a device has without such a line.
#[tactic(auto, unfolding(crate::specs::ScriptTexts::selector_lines))]
fn put_selectors<O: Out>(out: &mut O, caps: &DeviceCaps) -> Result<(), Failed>
    ensures { Writes (O.state out.old) (O.state out.new)
        (flat_map line_text (selector_lines caps.now.selectors)) result }
{
    if has_all_selectors(caps) {
        return Ok(());
    }
    put_each_selector(out, caps.selectors())
}

/// Whether a device has the selectors that it has where none is given.
fn has_all_selectors(caps: &DeviceCaps) -> bool
    ensures { result ≡ pointwise is_selector caps.now.selectors all_selectors }
{
    let all = DeviceCaps::with_all_selectors(caps.pairs(), *caps.limits());
    caps.selectors() == all.selectors()
}

/// Writes a line for each selector.
fn put_each_selector<O: Out>(out: &mut O, selectors: &[Selector]) -> Result<(), Failed>
    ensures { Writes (O.state out.old) (O.state out.new)
        (flat_map selector_line selectors.now) result }
{
    for selector in selectors {
        put_selector(out, selector)?;
    }
    Ok(())
}

/// Writes the line of a selector.
#[tactic(auto, unfolding(crate::specs::ScriptTexts::select_words))]
fn put_selector<O: Out>(out: &mut O, selector: &Selector) -> Result<(), Failed>
    ensures { Writes (O.state out.old) (O.state out.new) (selector_line selector.now) result }
{
    out.put(b"select ")?;
    out.put(header_word(selector.kind()))?;
    out.put(mode_words(selector.flags()))?;
    hex_put(out, selector.mask())?;
    out.put(b"\n")
}

/// The word for a flags byte, between blanks.
fn mode_words(flags: u8) -> &'static [u8]
    ensures { result.now ≡ 32 ∷ (mode_word flags ++ codes " ") }
{
    if flags == 1 { b" partial " } else { b" whole " }
}

/// Writes the specs of a table as comments, by rising location.
fn put_comments<O: Out>(out: &mut O, table: &Table) -> Result<(), Failed>
    ensures { Writes (O.state out.old) (O.state out.new) (flat_map comment_line (specs_of table.now)) result }
{
    put_slots(out, table.slots())
}

/// Writes a comment for each spec that stands in a place.
fn put_slots<O: Out>(out: &mut O, slots: &[Option<Spec>]) -> Result<(), Failed>
    ensures { Writes (O.state out.old) (O.state out.new) (flat_map slot_line slots.now) result }
{
    for slot in slots {
        put_slot(out, slot)?;
    }
    Ok(())
}

/// Writes the comment for what stands in a place.
fn put_slot<O: Out>(out: &mut O, slot: &Option<Spec>) -> Result<(), Failed>
    ensures { Writes (O.state out.old) (O.state out.new) (slot_line slot.now) result }
{
    match slot {
        Some(spec) => put_comment(out, spec),
        None => Ok(()),
    }
}

/// Writes a spec as a comment.
#[tactic(auto, unfolding(crate::specs::CompileTexts::comment_line))]
fn put_comment<O: Out>(out: &mut O, spec: &Spec) -> Result<(), Failed>
    ensures { Writes (O.state out.old) (O.state out.new) (comment_line spec.now) result }
{
    out.put(b"# ")?;
    put_spec(out, spec)?;
    out.put(b"\n")
}

/// Writes a line for each command.
fn put_commands<O: Out>(out: &mut O, commands: &[Command]) -> Result<(), Failed>
    requires { All IsWritable commands.now }
    ensures { Writes (O.state out.old) (O.state out.new) (flat_map command_line commands.now) result }
{
    for command in commands {
        put_command_line(out, command)?;
    }
    Ok(())
}

/// Writes the line of a command.
fn put_command_line<O: Out>(out: &mut O, command: &Command) -> Result<(), Failed>
    requires { IsWritable command.now }
    ensures { Writes (O.state out.old) (O.state out.new) (command_line command.now) result }
{
    out.put(b"admin ")?;
    hex_put(out, put_command(command).as_slice())?;
    out.put(b" 8\n")
}
