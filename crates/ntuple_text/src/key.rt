//! The words that name an option of a line, and the flows.
ghost use Rattle.std.specs.Prelude.{◌≡◌};
ghost use Rattle.ntuple_text.specs.Keys.{field_of, flow_of, form_of, has_field, key_of};

use crate::spec::Flow;

/// A field of a frame, by the word that names it.
#[derive(Clone, Copy, Debug, PartialEq, Eq)]
pub enum SpecField {
    /// `src`
    SrcMac,
    /// `dst`
    DstMac,
    /// `proto`
    EtherType,
    /// `src-ip`
    SrcIp,
    /// `dst-ip`
    DstIp,
    /// `tos`
    Tos,
    /// `tclass`
    TrafficClass,
    /// `l4proto`
    L4Proto,
    /// `src-port`
    SrcPort,
    /// `dst-port`
    DstPort,
}

/// What an option is about.
#[derive(Clone, Copy, Debug, PartialEq, Eq)]
pub enum OptionKey {
    /// A field of the frame.
    SpecField(SpecField),
    /// `action`
    Action,
    /// `queue`
    Queue,
    /// `loc`
    Loc,
}

/// How a field's value is spelled, with its range.
#[derive(Clone, Copy, Debug, PartialEq, Eq)]
pub enum FieldForm {
    /// A MAC address.
    Mac,
    /// An IPv4 address.
    Ipv4,
    /// An IPv6 address.
    Ipv6,
    /// A number of 8 bits.
    Bits8,
    /// A number of 16 bits.
    Bits16,
}

/// The flow that a word names.
#[tactic(auto, unfolding(crate::specs::Keys::flow_of, crate::specs::Keys::flow_word))]
pub(crate) fn flow_of(word: &[u8]) -> Option<Flow>
    ensures { result ≡ flow_of word.now }
{
    if word == b"ether".as_slice() {
        Some(Flow::Ether)
    } else if word == b"ip4".as_slice() {
        Some(Flow::Ip4)
    } else if word == b"tcp4".as_slice() {
        Some(Flow::Tcp4)
    } else if word == b"udp4".as_slice() {
        Some(Flow::Udp4)
    } else if word == b"ip6".as_slice() {
        Some(Flow::Ip6)
    } else if word == b"tcp6".as_slice() {
        Some(Flow::Tcp6)
    } else if word == b"udp6".as_slice() {
        Some(Flow::Udp6)
    } else {
        None
    }
}

/// What the option that a word names is about.
#[tactic(auto, unfolding(crate::specs::Keys::key_of))]
pub(crate) fn key_of(word: &[u8]) -> Option<OptionKey>
    ensures { result ≡ key_of word.now }
{
    if word == b"action".as_slice() {
        Some(OptionKey::Action)
    } else if word == b"queue".as_slice() {
        Some(OptionKey::Queue)
    } else if word == b"loc".as_slice() {
        Some(OptionKey::Loc)
    } else {
        match field_of(word) {
            Some(field) => Some(OptionKey::SpecField(field)),
            None => None,
        }
    }
}

/// The field that a word names.
#[tactic(auto, unfolding(crate::specs::Keys::field_name, crate::specs::Keys::field_of))]
fn field_of(word: &[u8]) -> Option<SpecField>
    ensures { result ≡ field_of word.now }
{
    if word == b"src".as_slice() {
        Some(SpecField::SrcMac)
    } else if word == b"dst".as_slice() {
        Some(SpecField::DstMac)
    } else if word == b"proto".as_slice() {
        Some(SpecField::EtherType)
    } else if word == b"src-ip".as_slice() {
        Some(SpecField::SrcIp)
    } else if word == b"dst-ip".as_slice() {
        Some(SpecField::DstIp)
    } else if word == b"tos".as_slice() {
        Some(SpecField::Tos)
    } else if word == b"tclass".as_slice() {
        Some(SpecField::TrafficClass)
    } else if word == b"l4proto".as_slice() {
        Some(SpecField::L4Proto)
    } else if word == b"src-port".as_slice() {
        Some(SpecField::SrcPort)
    } else if word == b"dst-port".as_slice() {
        Some(SpecField::DstPort)
    } else {
        None
    }
}

impl Flow {
    /// Whether the flow has the field.
    pub(crate) fn has_field(self, field: SpecField) -> bool
        ensures { result ≡ has_field self field }
    {
        match field {
            SpecField::SrcMac | SpecField::DstMac | SpecField::EtherType => self == Flow::Ether,
            SpecField::SrcIp | SpecField::DstIp => self != Flow::Ether,
            SpecField::Tos => matches!(self, Flow::Ip4 | Flow::Tcp4 | Flow::Udp4),
            SpecField::TrafficClass => matches!(self, Flow::Ip6 | Flow::Tcp6 | Flow::Udp6),
            SpecField::L4Proto => matches!(self, Flow::Ip4 | Flow::Ip6),
            SpecField::SrcPort | SpecField::DstPort => {
                matches!(self, Flow::Tcp4 | Flow::Udp4 | Flow::Tcp6 | Flow::Udp6)
            }
        }
    }

    /// How the field's value is spelled in this flow.
    pub(crate) fn form(self, field: SpecField) -> FieldForm
        ensures { result ≡ form_of self field }
    {
        match field {
            SpecField::SrcMac | SpecField::DstMac => FieldForm::Mac,
            SpecField::SrcIp | SpecField::DstIp => match self {
                Flow::Ip6 | Flow::Tcp6 | Flow::Udp6 => FieldForm::Ipv6,
                _ => FieldForm::Ipv4,
            },
            SpecField::Tos | SpecField::TrafficClass | SpecField::L4Proto => FieldForm::Bits8,
            SpecField::EtherType | SpecField::SrcPort | SpecField::DstPort => FieldForm::Bits16,
        }
    }
}
