//! The options of a line, read word by word.
ghost use Rattle.std.specs.Prelude.{◌≡◌, is_some, option_map};
ghost use Rattle.vnff_base.specs.Lines.{words_of};
ghost use Rattle.ntuple_text.specs.Drafts.{draft_of, part_of, read_options, read_word, unless_stood, with_action};
ghost use Rattle.ntuple_text.specs.Drafts.{with_awaits, with_mark_word, with_mask_word, with_option, with_option_word};
ghost use Rattle.ntuple_text.specs.Drafts.{with_part, with_skip, with_value_word};
ghost use Rattle.ntuple_text.specs.Keys.{key_of};
ghost use Rattle.ntuple_text.specs.TableLines.{spec_of_options};

use crate::error::Fault;
use crate::key::{OptionKey, SpecField, key_of};
use crate::spec::{Flow, Part, Spec, TableDo};
use crate::value::{action_value, field_value, location_value, queue_value};
use vnff_base::first_word;

/// What the next word of a line may be.
#[derive(Clone, Copy, Debug, PartialEq, Eq)]
pub(crate) enum Awaits {
    /// The word of an option.
    OptionWord,
    /// The value of an option.
    Value(OptionKey),
    /// `m` before the field's mask, or the word of an option.
    Mark(SpecField),
    /// The field's mask.
    Mask(SpecField),
}

/// The options of a line so far.
#[derive(Clone, Copy, Debug, PartialEq, Eq)]
pub(crate) struct Draft {
    pub(crate) flow: Flow,
    pub(crate) src: Option<Part>,
    pub(crate) dst: Option<Part>,
    pub(crate) proto: Option<Part>,
    pub(crate) class: Option<Part>,
    pub(crate) src_port: Option<Part>,
    pub(crate) dst_port: Option<Part>,
    pub(crate) action: Option<TableDo>,
    pub(crate) loc: Option<u16>,
    pub(crate) awaits: Awaits,
}

impl Draft {
    /// Before the first option.
    pub(crate) fn new(flow: Flow) -> Draft
        ensures { result ≡ draft_of flow }
    {
        Draft {
            flow,
            src: None,
            dst: None,
            proto: None,
            class: None,
            src_port: None,
            dst_port: None,
            action: None,
            loc: None,
            awaits: Awaits::OptionWord,
        }
    }

    /// The spec of these options.
    pub(crate) fn spec(self, action: TableDo, loc: u16) -> Spec
        ensures { result ≡ spec_of_options self action loc }
    {
        Spec {
            flow: self.flow,
            src: self.src,
            dst: self.dst,
            proto: self.proto,
            class: self.class,
            src_port: self.src_port,
            dst_port: self.dst_port,
            action,
            loc,
        }
    }

    /// The options of a line's words, after those of the draft, up to the first fault.
    pub(crate) fn read_options(self, line: &[u8], pairs: u8) -> Result<Draft, Fault>
        ensures { result ≡ read_options pairs self (words_of line.now) }
    {
        let mut draft = self;
        let mut rest = line;
        while let Some((word, more)) = first_word(rest) {
            draft = draft.read_word(word, pairs)?;
            rest = more;
        }
        Ok(draft)
    }

    // One more word.
    #[tactic(auto, unfolding(crate::specs::Drafts::read_word))]
    fn read_word(self, word: &[u8], pairs: u8) -> Result<Draft, Fault>
        ensures { result ≡ read_word pairs self word.now }
    {
        match self.awaits {
            Awaits::OptionWord => self.with_option_word(word),
            Awaits::Value(key) => self.with_value_word(key, word, pairs),
            Awaits::Mark(field) => self.with_mark_word(field, word),
            Awaits::Mask(field) => self.with_mask_word(field, word),
        }
    }

    fn with_mark_word(self, field: SpecField, word: &[u8]) -> Result<Draft, Fault>
        ensures { result ≡ with_mark_word self field word.now }
    {
        if word == b"m".as_slice() {
            Ok(self.with_awaits(Awaits::Mask(field)))
        } else {
            self.with_option_word(word)
        }
    }

    fn with_option_word(self, word: &[u8]) -> Result<Draft, Fault>
        ensures { result ≡ with_option_word self (key_of word.now) }
    {
        match key_of(word) {
            Some(key) => self.with_option(key),
            None => Err(Fault::Word),
        }
    }

    #[tactic(auto, unfolding(crate::specs::Drafts::with_option))]
    fn with_option(self, key: OptionKey) -> Result<Draft, Fault>
        ensures { result ≡ with_option self key }
    {
        match key {
            OptionKey::SpecField(field) => {
                if !self.flow.has_field(field) {
                    return Err(Fault::NotInFlow);
                }
                self.unless_stood(self.part_of(field).is_some(), key)
            }
            OptionKey::Action | OptionKey::Queue => self.unless_stood(self.action.is_some(), key),
            OptionKey::Loc => self.unless_stood(self.loc.is_some(), key),
        }
    }

    fn unless_stood(self, stood: bool, key: OptionKey) -> Result<Draft, Fault>
        ensures { result ≡ unless_stood self stood key }
    {
        if stood {
            Err(Fault::Twice)
        } else {
            Ok(self.with_awaits(Awaits::Value(key)))
        }
    }

    #[tactic(auto, unfolding(crate::specs::Drafts::with_value_word))]
    fn with_value_word(self, key: OptionKey, word: &[u8], pairs: u8) -> Result<Draft, Fault>
        ensures { result ≡ with_value_word pairs self key word.now }
    {
        match key {
            OptionKey::SpecField(field) => {
                let value = field_value(word, self.flow.form(field))?;
                let part = Part { value, skip: 0 };
                Ok(
                    self.with_part(field, Some(part))
                        .with_awaits(Awaits::Mark(field)),
                )
            }
            OptionKey::Action => Ok(self.with_action(action_value(word, pairs)?)),
            OptionKey::Queue => Ok(self.with_action(queue_value(word, pairs)?)),
            OptionKey::Loc => Ok(Draft {
                loc: Some(location_value(word)?),
                awaits: Awaits::OptionWord,
                ..self
            }),
        }
    }

    #[tactic(auto, unfolding(crate::specs::Drafts::with_mask_word))]
    fn with_mask_word(self, field: SpecField, word: &[u8]) -> Result<Draft, Fault>
        ensures { result ≡ with_mask_word self field word.now }
    {
        let mask = field_value(word, self.flow.form(field))?;
        let part = with_skip(self.part_of(field), mask);
        Ok(self.with_part(field, part).with_awaits(Awaits::OptionWord))
    }

    fn with_action(self, action: TableDo) -> Draft
        ensures { result ≡ with_action self action }
    {
        Draft {
            action: Some(action),
            awaits: Awaits::OptionWord,
            ..self
        }
    }

    fn with_awaits(self, awaits: Awaits) -> Draft
        ensures { result ≡ with_awaits self awaits }
    {
        Draft { awaits, ..self }
    }

    // The part that stands for a field.
    fn part_of(self, field: SpecField) -> Option<Part>
        ensures { result ≡ part_of self field }
    {
        match field {
            SpecField::SrcMac | SpecField::SrcIp => self.src,
            SpecField::DstMac | SpecField::DstIp => self.dst,
            SpecField::EtherType | SpecField::L4Proto => self.proto,
            SpecField::Tos | SpecField::TrafficClass => self.class,
            SpecField::SrcPort => self.src_port,
            SpecField::DstPort => self.dst_port,
        }
    }

    fn with_part(self, field: SpecField, part: Option<Part>) -> Draft
        ensures { result ≡ with_part self field part }
    {
        match field {
            SpecField::SrcMac | SpecField::SrcIp => Draft { src: part, ..self },
            SpecField::DstMac | SpecField::DstIp => Draft { dst: part, ..self },
            SpecField::EtherType | SpecField::L4Proto => Draft {
                proto: part,
                ..self
            },
            SpecField::Tos | SpecField::TrafficClass => Draft {
                class: part,
                ..self
            },
            SpecField::SrcPort => Draft {
                src_port: part,
                ..self
            },
            SpecField::DstPort => Draft {
                dst_port: part,
                ..self
            },
        }
    }
}

// The part with these bits skipped.
fn with_skip(part: Option<Part>, skip: u128) -> Option<Part>
    ensures { result ≡ option_map (with_skip skip) part }
{
    match part {
        Some(part) => Some(Part { skip, ..part }),
        None => None,
    }
}
