//! Laws of the definitions. Each call does nothing: its contract is the law.

ghost use Rattle.std.specs.Prelude.{◌≡◌, ◌↔◌, ◌⊎◌, ℕ, List, take, fold, nat_le, if◌then◌else◌};
ghost use Rattle.std.specs.Prelude.{IsSome, IsNone, IfSome, All};
ghost use Rattle.ff_headers.specs.declared.limits.Limits.{Limits};
ghost use Rattle.ff_headers.specs.declared.kind.Kind.{Kind};
ghost use Rattle.ff_headers.specs.Frames.{HeaderBytes, header_at, headers_of};
ghost use Rattle.ff_headers.specs.Cuts.{StandsIn, needed_for, headers_end};
ghost use Rattle.ff_headers.specs.Objects.{FlowObjects, no_objects, IsWellFormed, IsById};
ghost use Rattle.ff_headers.specs.Changes.{CarriesShape, step, after, count_after, change_count, saturated};
ghost use Rattle.ff_headers.specs.declared.change.Change.{Change};
ghost use Rattle.ff_headers.specs.Places.{RuleEntry, IsMatching, IsFirst, first_rule};

/// A frame has one IP header and one port header at most. A port header stands on an IP header, and that on an
/// Ethernet header.
pub fn headers_stand_on_each_other()
    ensures one_ip { (frame : List ℕ) → IsSome (headers_of frame).ipv4 → IsNone (headers_of frame).ipv6 }
    ensures one_ports { (frame : List ℕ) → IsSome (headers_of frame).tcp → IsNone (headers_of frame).udp }
    ensures ports_on_ip { (frame : List ℕ) → IsSome (headers_of frame).tcp ⊎ IsSome (headers_of frame).udp
        → IsSome (headers_of frame).ipv4 ⊎ IsSome (headers_of frame).ipv6 }
    ensures ip_on_ethernet { (frame : List ℕ) → IsSome (headers_of frame).ipv4 ⊎ IsSome (headers_of frame).ipv6
        → IsSome (headers_of frame).eth }
{}

/// Each header that a frame has stands in it at the header's place.
pub fn headers_stand_in_their_frame()
    ensures { (frame : List ℕ) (kind : Kind) → IfSome (header_at (headers_of frame) kind) (StandsIn kind frame) }
{}

/// A frame that is cut is judged by what is left of it: it has the headers whose bytes are left, and no other. So
/// frames that begin alike have the same headers.
pub fn cut_frames_are_judged_by_what_is_left()
    ensures cut { (frame : List ℕ) (n : ℕ) (kind : Kind) → header_at (headers_of (take n frame)) kind
        ≡ (if nat_le (needed_for kind frame) n then header_at (headers_of frame) kind else None) }
    ensures alike { (a b : List ℕ) → take headers_end a ≡ take headers_end b → headers_of a ≡ headers_of b }
{}

/// `first_rule` is there exactly where some rule matches. It is then first, and no other rule is.
pub fn first_rule_is_the_first()
    ensures found { (objects : FlowObjects) (headers : HeaderBytes) → IsById objects.rules
        → (IsSome (first_rule objects headers) ↔ ((entry : RuleEntry) × IsMatching objects headers entry)) }
    ensures first { (objects : FlowObjects) (headers : HeaderBytes) → IsById objects.rules
        → IfSome (first_rule objects headers) (IsFirst objects headers) }
    ensures alone { (objects : FlowObjects) (headers : HeaderBytes) (a b : RuleEntry)
        → IsFirst objects headers a → IsFirst objects headers b → a ≡ b }
{}

/// A step keeps well-formed objects well formed, so any first changes leave such objects.
pub fn changes_keep_objects_well_formed()
    ensures start { (limits : Limits) → IsWellFormed limits no_objects }
    ensures kept { (limits : Limits) (objects : FlowObjects) (change : Change) → IsWellFormed limits objects
        → CarriesShape change → IsWellFormed limits (step limits objects change) }
    ensures all { (limits : Limits) (changes : List Change) (k : ℕ) → All CarriesShape changes
        → IsWellFormed limits (after limits changes k) }
{}

/// Counting changes one by one gives how many there are, or the count's end.
pub fn each_change_is_counted()
    ensures { (changes : List Change) → fold count_after 0 changes ≡ saturated (change_count changes) }
{}
