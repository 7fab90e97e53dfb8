//! The classifiers that specs share.
//!
//! Two specs share a classifier where their selectors have the same kinds and masks. The classifier of a spec is found
//! by bytes in a sorted map, so no search goes over all of them.

ghost use Rattle.std.specs.Prelude.{◌≡◌, ◌≤◌, IfOk, OnOk, All, length, map};
ghost use Rattle.ntuple_compile.specs.Compiled.{shape_number, shapes_of};
ghost use Rattle.ntuple_compile.specs.Selected.{AreGiven, selectors_of};
ghost use Rattle.ntuple_compile.specs.ShapeBytes.{IsNumbered, number_under, shape_bytes, with_use};

use crate::selected::{kinds_of, mask_for};
use arrayvec::ArrayVec;
use ntuple_text::Spec;
use std::alloc::{AllocError, Global};
use std::collections::BTreeMap;

/// The type bytes and masks of at most two headers, whose masks have at most 40 bytes each.
type ShapeBytes = ArrayVec<u8, 82>;

/// The shapes of specs, numbered in the order of their first use.
#[derive(Drop)]
pub(crate) struct Shapes {
    /// The first spec of each shape, by the shape's number.
    firsts: Vec<Spec>,
    /// The number of each shape, by its bytes.
    numbers: BTreeMap<ShapeBytes, usize>,
}

impl Shapes {
    /// The shapes of specs.
    pub(crate) fn of(alloc: Global, specs: &[Spec]) -> Result<Shapes, AllocError>
        requires { All AreGiven specs.now }
        ensures value { IfOk result (λ shapes. map selectors_of shapes.firsts.items ≡ shapes_of specs.now) }
        ensures numbered { IfOk result (λ shapes. IsNumbered shapes.firsts.items (number_under shapes.numbers)) }
        ensures few { IfOk result (λ shapes. length shapes.firsts.items ≤ length specs.now) }
    {
        let mut shapes = Shapes {
            firsts: Vec::new(alloc),
            numbers: BTreeMap::new(alloc),
        };
        for spec in specs {
            shapes.add(spec)?;
        }
        Ok(shapes)
    }

    /// The first spec of each shape, by the shape's number.
    pub(crate) fn firsts(&self) -> &[Spec]
        ensures { result.now ≡ self.now.firsts.items }
    {
        &self.firsts
    }

    /// The number of a spec's shape, or how many there are where no spec has it.
    pub(crate) fn number(&self, spec: &Spec) -> usize
        requires given { AreGiven spec.now }
        requires numbered { IsNumbered self.now.firsts.items (number_under self.now.numbers) }
        ensures value { result ≡ shape_number (map selectors_of self.now.firsts.items) spec.now }
        ensures few { result ≤ length self.now.firsts.items }
    {
        match self.numbers.get(&bytes_for(spec)) {
            Some(number) => *number,
            None => self.firsts.len(),
        }
    }

    /// Gives the spec's shape the next number, where no spec before had it.
    fn add(&mut self, spec: &Spec) -> Result<(), AllocError>
        requires given { AreGiven spec.now }
        requires numbered { IsNumbered self.old.firsts.items (number_under self.old.numbers) }
        ensures value { OnOk result (self.new.firsts.items ≡ with_use self.old.firsts.items spec.now) }
        ensures numbered { OnOk result (IsNumbered self.new.firsts.items (number_under self.new.numbers)) }
    {
        let bytes = bytes_for(spec);
        if !self.numbers.contains_key(&bytes) {
            self.numbers.insert(bytes, self.firsts.len())?;
            self.firsts.push(*spec)?;
        }
        Ok(())
    }
}

/// The bytes of a spec's shape: the type byte and the mask of each header that its flow names.
fn bytes_for(spec: &Spec) -> ShapeBytes
    requires { AreGiven spec.now }
    ensures { result.items ≡ shape_bytes (selectors_of spec.now) }
{
    let mut bytes = ArrayVec::new();
    for kind in kinds_of(spec.flow) {
        bytes.push(kind.code());
        let mask = mask_for(spec, *kind);
        bytes.try_extend_from_slice(mask.as_slice()).unwrap();
    }
    bytes
}
