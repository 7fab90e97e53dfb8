//! The frames of a capture, kept in two vectors: the bytes of all frames, and the places at which they end.

ghost use Rattle.std.specs.Prelude.{◌≡◌, ◌≤◌, ◌==◌, ◌↔◌, List, ℕ, [], ◌∷◌, ◌++◌, length, slice_get, slice_index, IsNone, IfOk, OnOk, OnErr};
ghost use Rattle.std.specs.Option.{option_copied};
ghost use Rattle.capture.specs.Pieces.{pieces, ArePlaces};

use std::alloc::{AllocError, Global};
use std::marker::Model;

/// Frames in order, which contracts see as a list of byte lists. All frames stand in one vector, with 8 bytes for each
/// frame beside it.
#[derive(Debug, Drop)]
pub struct Frames {
    bytes: Vec<u8>,
    ends: Vec<usize>,
}

impl Model for Frames {
    ghost use Rattle.std.specs.Prelude.{List, ℕ, ◌∷◌};
    ghost use Rattle.capture.specs.Pieces.{pieces, ArePlaces};

    ghost Value = { List (List ℕ) };

    ghost view = { λ f. pieces f.bytes.items (0 ∷ f.ends.items) };

    ghost invariant = { λ f. ArePlaces f.bytes.items (0 ∷ f.ends.items) };
}

impl Frames {
    /// No frame. It takes no memory.
    pub(crate) fn new(alloc: Global) -> Frames
        ensures { result ≡ [] }
    {
        Frames {
            bytes: Vec::new(alloc),
            ends: Vec::new(alloc),
        }
    }

    /// No frame, and room for that many frames with that many bytes in all.
    pub(crate) fn with_room(
        alloc: Global,
        frames: usize,
        bytes: usize,
    ) -> Result<Frames, AllocError>
        ensures { IfOk result (λ made. made ≡ []) }
    {
        Ok(Frames {
            bytes: Vec::with_capacity(alloc, bytes)?,
            ends: Vec::with_capacity(alloc, frames)?,
        })
    }

    /// Appends a frame.
    #[tactic(auto, using(crate::proofs::PieceLemmas::pieces_push))]
    pub(crate) fn push(&mut self, frame: &[u8]) -> Result<(), AllocError>
        ensures ok { OnOk result (self.new ≡ self.old ++ frame.now ∷ []) }
        ensures err { OnErr result (self.new ≡ self.old) }
    {
        self.ends.reserve(1)?;
        self.bytes.extend_from_slice(frame)?;
        self.ends.push_reserved(self.bytes.len());
        Ok(())
    }

    /// The number of frames.
    #[tactic(auto, using(crate::proofs::PieceLemmas::piece_facts))]
    pub fn len(&self) -> usize
        ensures { result ≡ length self.now }
    {
        self.ends.len()
    }

    /// Whether there is no frame.
    pub fn is_empty(&self) -> bool
        ensures { result ≡ (length self.now == 0) }
    {
        self.len() == 0
    }

    /// The frame at a place, counted from 0.
    #[tactic(auto, using(crate::proofs::PieceLemmas::piece_facts))]
    pub fn at(&self, place: usize) -> Option<&[u8]>
        ensures item { option_copied result ≡ slice_get self.now place }
        ensures past { IsNone result ↔ (length self.now ≤ place) }
    {
        piece_at(&self.bytes, &self.ends, place)
    }
}

/// The piece at a place, counted from 0, of bytes that are cut where each piece ends.
#[tactic(auto, using(crate::proofs::PieceLemmas::piece_facts))]
pub fn piece_at<'a>(bytes: &'a [u8], ends: &[usize], place: usize) -> Option<&'a [u8]>
    requires { ArePlaces bytes.now (0 ∷ ends.now) }
    ensures item { option_copied result ≡ slice_get (pieces bytes.now (0 ∷ ends.now)) place }
    ensures past { IsNone result ↔ (length ends.now ≤ place) }
{
    if place >= ends.len() {
        return None;
    }
    let from = start_of(ends, place);
    let to = ends[place];
    Some(&bytes[from..to])
}

/// Where a frame begins: at the end of the one before it.
fn start_of(ends: &[usize], place: usize) -> usize
    requires { place ≤ length ends.now }
    ensures { result ≡ slice_index (0 ∷ ends.now) place }
{
    if place == 0 { 0 } else { ends[place - 1] }
}
