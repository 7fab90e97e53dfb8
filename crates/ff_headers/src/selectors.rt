ghost use Rattle.std.specs.Prelude.{◌≡◌, ◌≤◌, ◌↔◌, List, length, map, IsOk, All};
ghost use Rattle.ff_headers.specs.SelectorParts.{SelectorParts, IsWhole};
ghost use Rattle.ff_headers.specs.Shapes.{HasShape, IsClassifier, shaped, shape_fault, has_kind, codes_of, rises};
ghost use Rattle.ff_headers.specs.Matching.{key_size};

use crate::error::ShapeErr;
use crate::kind::Kind;
use crate::selector::Selector;
use arrayvec::ArrayVec;
use std::marker::Model;

/// The selectors of a classifier: one to three, of good shape.
#[derive(Debug, Drop, PartialEq, Eq)]
pub struct Selectors {
    list: ArrayVec<Selector, 3>,
}

impl Model for Selectors {
    ghost Value = { List SelectorParts };

    ghost view = { λ s. s.list.items };

    ghost invariant = { λ s. IsClassifier s.list.items };

    ghost inverse = { λ xs. record { list = record { items = xs } } };
}

impl Selectors {
    /// The selectors of a list, where it has good shape.
    #[tactic(auto, using(crate::proofs::ShapeLemmas::shaping))]
    pub fn of(list: &[Selector]) -> Result<Selectors, ShapeErr>
        ensures value { result ≡ shaped list.now }
        ensures shape { IsOk result ↔ HasShape list.now }
        ensures at_most_three { HasShape list.now → length list.now ≤ 3 }
    {
        match shape_fault(list) {
            Some(fault) => Err(fault),
            None => Ok(Selectors {
                list: copied_selectors(list),
            }),
        }
    }

    /// The bytes of a key for these selectors.
    pub fn key_size(&self) -> usize
        ensures value { result ≡ key_size self.now }
        ensures fits { result ≤ 74 }
    {
        key_size(self.list.as_slice())
    }

    /// The selectors, by rising type.
    pub fn as_slice(&self) -> &[Selector]
        ensures value { result.now ≡ self.now }
        ensures good { IsClassifier self.now }
        ensures at_most_three { length self.now ≤ 3 }
    {
        self.list.as_slice()
    }

    /// Equal selectors. It takes no memory.
    pub fn copy(&self) -> Selectors
        ensures { result ≡ self.now }
    {
        Selectors {
            list: copied_selectors(self.list.as_slice()),
        }
    }
}

/// The selectors, in a list that takes no memory.
pub fn copied_selectors<const N: usize>(list: &[Selector]) -> ArrayVec<Selector, N>
    requires { length list.now ≤ N }
    ensures value { result.items ≡ list.now }
    ensures whole { All IsWhole list.now }
{
    let mut copies = ArrayVec::new();
    for selector in list {
        copies.push(selector.copy());
    }
    copies
}

/// The first rule of good shape that the list breaks.
#[tactic(auto, unfolding(crate::specs::Shapes::shape_fault))]
fn shape_fault(list: &[Selector]) -> Option<ShapeErr>
    ensures { result ≡ shape_fault list.now }
{
    if list.is_empty() {
        return Some(ShapeErr::Empty);
    }
    if !rises(list) {
        return Some(ShapeErr::Order);
    }
    if has_kind(list, Kind::Ipv4) && has_kind(list, Kind::Ipv6) {
        return Some(ShapeErr::BothIp);
    }
    if has_kind(list, Kind::Tcp) && has_kind(list, Kind::Udp) {
        return Some(ShapeErr::BothPorts);
    }
    None
}

/// Whether some selector is of the kind.
fn has_kind(list: &[Selector], kind: Kind) -> bool
    ensures { result ≡ has_kind kind list.now }
{
    list.iter()
        .map(|selector| selector.kind().code())
        .any(|code| kind.code() == code)
}

/// Whether the types of the selectors rise strictly.
pub fn rises(list: &[Selector]) -> bool
    ensures { result ≡ rises (codes_of list.now) }
{
    list.is_sorted_by(|a, b| a.kind().code() < b.kind().code())
}

/// The sum of the headers' sizes.
fn key_size(list: &[Selector]) -> usize
    requires { length list.now ≤ 3 }
    ensures { result ≡ key_size list.now }
{
    list.iter().map(|selector| selector.kind().size()).sum()
}
