ghost use Rattle.std.specs.Prelude.{◌≡◌, ◌≤◌, length};
ghost use Rattle.ff_headers.specs.Kinds.{kind_size};
ghost use Rattle.ff_headers.specs.SelectorParts.{SelectorParts, IsWhole, selector_with, blank_selector};

use crate::kind::Kind;
use arrayvec::ArrayVec;
use std::marker::Model;

/// A header and the bits of it that are compared: a mask of the header's size.
#[derive(Debug, Drop, PartialEq, Eq)]
pub struct Selector {
    kind: Kind,
    flags: u8,
    mask: ArrayVec<u8, 40>,
}

impl Model for Selector {
    ghost Value = { SelectorParts };

    ghost view = { λ s. selector_with s.kind s.flags s.mask.items };

    ghost invariant = { λ s. length s.mask.items ≡ kind_size s.kind };

    ghost inverse = { λ s. record { kind = s.kind; flags = s.flags; mask = record { items = s.mask } } };
}

impl Selector {
    /// The selector of a header's bits: `mask` has a bit set for each bit that is compared.
    pub fn new(kind: Kind, flags: u8, mask: &[u8]) -> Selector
        requires { length mask.now ≡ kind_size kind }
        ensures { result ≡ selector_with kind flags mask.now }
    {
        Selector {
            kind,
            flags,
            mask: copied_bytes(mask),
        }
    }

    /// The header that is compared.
    pub fn kind(&self) -> Kind
        ensures { result ≡ self.now.kind }
    {
        self.kind
    }

    /// The whole flags byte, as it was given. Bit 0 is PARTIAL_MASK.
    pub fn flags(&self) -> u8
        ensures { result ≡ self.now.flags }
    {
        self.flags
    }

    /// The mask, of the header's size.
    pub fn mask(&self) -> &[u8]
        ensures value { result.now ≡ self.now.mask }
        ensures whole { IsWhole self.now }
    {
        self.mask.as_slice()
    }

    /// An equal selector. It takes no memory.
    pub fn copy(&self) -> Selector
        ensures value { result ≡ self.now }
        ensures whole { IsWhole self.now }
    {
        Selector {
            kind: self.kind,
            flags: self.flags,
            mask: copied_bytes(self.mask.as_slice()),
        }
    }
}

/// An Ethernet selector that compares nothing, which fills the unused places of a list.
impl Default for Selector {
    ghost is_default = { λ s. s ≡ blank_selector };

    fn default() -> Self {
        Selector::new(Kind::Eth, 0, &[0; 14])
    }
}

/// The bytes, in a list that takes no memory.
pub fn copied_bytes<const N: usize>(bytes: &[u8]) -> ArrayVec<u8, N>
    requires { length bytes.now ≤ N }
    ensures { result.items ≡ bytes.now }
{
    let mut list = ArrayVec::new();
    list.try_extend_from_slice(bytes).unwrap();
    list
}
