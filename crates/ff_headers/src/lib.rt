//! Flow-filter headers: what a rule, a selector and a frame's headers are, and when a rule matches a frame.
//!
//! The types follow the flow filters of the Virtio 1.4 draft (network device, "Flow filter") and the structures of
//! Linux `virtio_net_ff.h`: a selector names a header and a mask, a classifier is a list of selectors, a rule has a
//! key for its classifier. Which headers a frame has, that both key and frame are masked, and the order of rules are
//! this project's own.
//!
//! It promises that `Headers::parse` holds the Ethernet, IPv4, IPv6, TCP and UDP headers that a frame has, that
//! `matches` says whether each selected header equals the key's part under the mask, and that `Selectors::of` accepts
//! exactly the lists of good shape. It also defines what a list of changes to groups, classifiers and rules leaves, and
//! which rule is the first that matches; the device and the search cite these definitions.
//!
//! `allowed` says which masks a selector of a device's capability allows: each header is cut into fields, and a field
//! is a number. `Steps` counts comparisons of keys in what contracts see, and takes no bytes.
//!
//! Definitions, in specs/: `Kinds` and `SelectorParts`, `Shapes` (good shape), `Fields` (fields as numbers, and the
//! mask rule), `Frames` (which headers a frame has, and where), `Cuts` (which bytes they depend on), `Matching` (a
//! selector fits, a rule matches), `RuleParts` and `Objects` (well-formed objects), `Dependents` (rules that name an
//! object), `Places` (first rule, action), `Changes`. The laws that stand on no other call are those of `laws`.
#![tactic(auto)]

mod change;
mod error;
mod field;
mod frame;
mod headers;
mod kind;
pub mod laws;
mod limits;
mod mask_rule;
mod matching;
mod rule;
mod selector;
mod selectors;
mod steps;

pub use change::Change;
pub use error::ShapeErr;
pub use field::{Field, fields_of};
pub use headers::{Headers, PROTOCOL_TCP, PROTOCOL_UDP};
pub use kind::Kind;
pub use limits::Limits;
pub use mask_rule::{PARTIAL_MASK, allowed, is_partial};
pub use matching::matches;
pub use rule::{Action, Key, RuleAction, RuleObj};
pub use selector::{Selector, copied_bytes};
pub use selectors::{Selectors, copied_selectors, rises};
pub use steps::{Steps, cmp_key};
