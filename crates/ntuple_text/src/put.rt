//! Specs and tables, written as canonical lines.
ghost use Rattle.std.specs.Prelude.{◌≡◌, ◌++◌, ◌*◌, ◌≤◌, length};
ghost use Rattle.std.specs.List.{flat_map};
ghost use Rattle.vnff_base.specs.Lines.{word_lines, words_of};
ghost use Rattle.vnff_base.specs.Outputs.{Writes};
ghost use Rattle.ntuple_text.specs.Keys.{flow_word};
ghost use Rattle.ntuple_text.specs.SpecTexts.{action_words, field_text, field_word, flow_fields, line_feed};
ghost use Rattle.ntuple_text.specs.SpecTexts.{loc_words, longest_line, mask_text, optional_part_text, options_text};
ghost use Rattle.ntuple_text.specs.SpecTexts.{part_text, queue_words, skip_text, slot_text, spec_part, spec_text};
ghost use Rattle.ntuple_text.specs.SpecTexts.{table_lines, value_text};
ghost use Rattle.ntuple_text.specs.Spellable.{IsSpellable};
ghost use Rattle.ntuple_text.specs.TableLines.{after_line, table_of};
ghost use Rattle.ntuple_text.specs.TableMaps.{TableMap, location_count, most_pairs, with_spec};

use crate::key::SpecField;
use crate::put_piece::{put_form, put_mac, put_number, put_type};
use crate::spec::{Flow, Part, Spec, TableDo};
use crate::table::Table;
use vnff_base::{Failed, Out};

/// Writes the lines of a table, by rising location. Read for the same queue pairs, they give the table again.
pub fn put_table<O: Out>(out: &mut O, table: &Table) -> Result<(), Failed>
    ensures written { Writes (O.state out.old) (O.state out.new) (table_lines table.now) result }
    ensures read_back { table_of table.now.pairs (word_lines (table_lines table.now)) ≡ Ok table.now }

    // Its text isn't too long to be read.
    ensures short { length (table_lines table.now) ≤ location_count * longest_line }
{
    put_slots(out, table.slots())
}

fn put_slots<O: Out>(out: &mut O, slots: &[Option<Spec>]) -> Result<(), Failed>
    ensures { Writes (O.state out.old) (O.state out.new) (flat_map slot_text slots.now) result }
{
    for slot in slots {
        put_slot(out, slot)?;
    }
    Ok(())
}

// Writes the line of what stands at a location.
#[tactic(auto, unfolding(crate::specs::SpecTexts::slot_text))]
fn put_slot<O: Out>(out: &mut O, slot: &Option<Spec>) -> Result<(), Failed>
    ensures { Writes (O.state out.old) (O.state out.new) (slot_text slot.now) result }
{
    match slot {
        Some(spec) => put_line(out, spec),
        None => Ok(()),
    }
}

fn put_line<O: Out>(out: &mut O, spec: &Spec) -> Result<(), Failed>
    ensures { Writes (O.state out.old) (O.state out.new) (spec_text spec.now ++ line_feed) result }
{
    put_spec(out, spec)?;
    out.put(b"\n")
}

/// Writes the canonical line of a spec, without its line feed: the flow, the fields that are given, the
/// action and the location, with single spaces. A mask is written where it skips a bit.
#[tactic(auto, unfolding(crate::specs::SpecTexts::spec_text))]
pub fn put_spec<O: Out>(out: &mut O, spec: &Spec) -> Result<(), Failed>
    ensures written { Writes (O.state out.old) (O.state out.new) (spec_text spec.now) result }

    // The line of a spec that lines can spell puts just this spec into any table.
    ensures read_back { (table : TableMap) → table.pairs ≤ most_pairs → IsSpellable table.pairs spec.now
        → after_line table (words_of (spec_text spec.now)) ≡ Ok (with_spec table spec.now) }
{
    out.put(b"flow-type ")?;
    put_flow(out, spec.flow)?;
    put_options(out, spec)
}

#[tactic(auto, unfolding(crate::specs::Keys::flow_word))]
fn put_flow<O: Out>(out: &mut O, flow: Flow) -> Result<(), Failed>
    ensures { Writes (O.state out.old) (O.state out.new) (flow_word flow) result }
{
    match flow {
        Flow::Ether => out.put(b"ether"),
        Flow::Ip4 => out.put(b"ip4"),
        Flow::Tcp4 => out.put(b"tcp4"),
        Flow::Udp4 => out.put(b"udp4"),
        Flow::Ip6 => out.put(b"ip6"),
        Flow::Tcp6 => out.put(b"tcp6"),
        Flow::Udp6 => out.put(b"udp6"),
    }
}

#[tactic(auto, unfolding(crate::specs::SpecTexts::options_text))]
fn put_options<O: Out>(out: &mut O, spec: &Spec) -> Result<(), Failed>
    ensures { Writes (O.state out.old) (O.state out.new) (options_text spec.now) result }
{
    put_fields(out, spec)?;
    put_action(out, spec.action)?;
    put_loc(out, spec.loc)
}

fn put_fields<O: Out>(out: &mut O, spec: &Spec) -> Result<(), Failed>
    ensures { Writes (O.state out.old) (O.state out.new)
        (flat_map (field_text spec.now) (flow_fields spec.now.flow)) result }
{
    put_each(out, spec, flow_fields(spec.flow))
}

fn put_each<O: Out>(out: &mut O, spec: &Spec, fields: &[SpecField]) -> Result<(), Failed>
    ensures { Writes (O.state out.old) (O.state out.new) (flat_map (field_text spec.now) fields.now) result }
{
    for field in fields {
        put_field(out, spec, *field)?;
    }
    Ok(())
}

// The fields of a flow, in the order in which they are written.
#[tactic(auto, unfolding(crate::specs::SpecTexts::flow_fields))]
fn flow_fields(flow: Flow) -> &'static [SpecField]
    ensures { result.now ≡ flow_fields flow }
{
    match flow {
        Flow::Ether => &[SpecField::SrcMac, SpecField::DstMac, SpecField::EtherType],
        Flow::Ip4 => &[
            SpecField::SrcIp,
            SpecField::DstIp,
            SpecField::Tos,
            SpecField::L4Proto,
        ],
        Flow::Ip6 => &[
            SpecField::SrcIp,
            SpecField::DstIp,
            SpecField::TrafficClass,
            SpecField::L4Proto,
        ],
        Flow::Tcp4 | Flow::Udp4 => &[
            SpecField::SrcIp,
            SpecField::DstIp,
            SpecField::Tos,
            SpecField::SrcPort,
            SpecField::DstPort,
        ],
        Flow::Tcp6 | Flow::Udp6 => &[
            SpecField::SrcIp,
            SpecField::DstIp,
            SpecField::TrafficClass,
            SpecField::SrcPort,
            SpecField::DstPort,
        ],
    }
}

#[tactic(auto, unfolding(crate::specs::SpecTexts::field_text))]
fn put_field<O: Out>(out: &mut O, spec: &Spec, field: SpecField) -> Result<(), Failed>
    ensures { Writes (O.state out.old) (O.state out.new) (field_text spec.now field) result }
{
    put_optional_part(out, spec.flow, field, spec_part(spec, field))
}

fn put_optional_part<O: Out>(
    out: &mut O,
    flow: Flow,
    field: SpecField,
    part: Option<Part>,
) -> Result<(), Failed>
    ensures { Writes (O.state out.old) (O.state out.new) (optional_part_text flow field part) result }
{
    match part {
        Some(part) => put_part(out, flow, field, part),
        None => Ok(()),
    }
}

// The part that stands for a field.
fn spec_part(spec: &Spec, field: SpecField) -> Option<Part>
    ensures { result ≡ spec_part spec.now field }
{
    match field {
        SpecField::SrcMac | SpecField::SrcIp => spec.src,
        SpecField::DstMac | SpecField::DstIp => spec.dst,
        SpecField::EtherType | SpecField::L4Proto => spec.proto,
        SpecField::Tos | SpecField::TrafficClass => spec.class,
        SpecField::SrcPort => spec.src_port,
        SpecField::DstPort => spec.dst_port,
    }
}

#[tactic(auto, unfolding(crate::specs::SpecTexts::part_text))]
fn put_part<O: Out>(out: &mut O, flow: Flow, field: SpecField, part: Part) -> Result<(), Failed>
    ensures { Writes (O.state out.old) (O.state out.new) (part_text flow field part) result }
{
    put_field_word(out, field)?;
    put_value(out, flow, field, part.value)?;
    put_mask(out, flow, field, part.skip)
}

#[tactic(auto, unfolding(crate::specs::Keys::field_name, crate::specs::SpecTexts::field_word))]
fn put_field_word<O: Out>(out: &mut O, field: SpecField) -> Result<(), Failed>
    ensures { Writes (O.state out.old) (O.state out.new) (field_word field) result }
{
    match field {
        SpecField::SrcMac => out.put(b" src "),
        SpecField::DstMac => out.put(b" dst "),
        SpecField::EtherType => out.put(b" proto "),
        SpecField::SrcIp => out.put(b" src-ip "),
        SpecField::DstIp => out.put(b" dst-ip "),
        SpecField::Tos => out.put(b" tos "),
        SpecField::TrafficClass => out.put(b" tclass "),
        SpecField::L4Proto => out.put(b" l4proto "),
        SpecField::SrcPort => out.put(b" src-port "),
        SpecField::DstPort => out.put(b" dst-port "),
    }
}

#[tactic(auto, unfolding(crate::specs::SpecTexts::mask_text))]
fn put_mask<O: Out>(out: &mut O, flow: Flow, field: SpecField, mask: u128) -> Result<(), Failed>
    ensures { Writes (O.state out.old) (O.state out.new) (mask_text flow field mask) result }
{
    if mask == 0 {
        Ok(())
    } else {
        put_skip(out, flow, field, mask)
    }
}

#[tactic(auto, unfolding(crate::specs::SpecTexts::skip_text))]
fn put_skip<O: Out>(out: &mut O, flow: Flow, field: SpecField, mask: u128) -> Result<(), Failed>
    ensures { Writes (O.state out.old) (O.state out.new) (skip_text flow field mask) result }
{
    out.put(b" m ")?;
    put_value(out, flow, field, mask)
}

#[tactic(auto, unfolding(crate::specs::SpecTexts::value_text))]
fn put_value<O: Out>(out: &mut O, flow: Flow, field: SpecField, value: u128) -> Result<(), Failed>
    ensures { Writes (O.state out.old) (O.state out.new) (value_text flow field value) result }
{
    match field {
        SpecField::SrcMac | SpecField::DstMac => put_mac(out, value),
        SpecField::EtherType => put_type(out, value),
        SpecField::SrcIp | SpecField::DstIp => put_form(out, flow.form(field), value),
        _ => put_number(out, value),
    }
}

#[tactic(auto, unfolding(crate::specs::SpecTexts::action_words))]
fn put_action<O: Out>(out: &mut O, action: TableDo) -> Result<(), Failed>
    ensures { Writes (O.state out.old) (O.state out.new) (action_words action) result }
{
    match action {
        TableDo::Drop => out.put(b" action -1"),
        TableDo::Queue(queue) => put_queue(out, queue),
    }
}

#[tactic(auto, unfolding(crate::specs::SpecTexts::queue_words))]
fn put_queue<O: Out>(out: &mut O, queue: u8) -> Result<(), Failed>
    ensures { Writes (O.state out.old) (O.state out.new) (queue_words queue) result }
{
    out.put(b" action ")?;
    put_number(out, u128::from(queue))
}

#[tactic(auto, unfolding(crate::specs::SpecTexts::loc_words))]
fn put_loc<O: Out>(out: &mut O, loc: u16) -> Result<(), Failed>
    ensures { Writes (O.state out.old) (O.state out.new) (loc_words loc) result }
{
    out.put(b" loc ")?;
    put_number(out, u128::from(loc))
}
