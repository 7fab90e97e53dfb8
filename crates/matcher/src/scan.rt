//! The plain search: a walk over all rules that keeps the first of those that match.

ghost use Rattle.std.specs.Prelude.{◌≡◌, ◌<◌, length, slice_get};
ghost use Rattle.std.specs.Option.{option_map};
ghost use Rattle.ff_headers.specs.Objects.{IsWellFormed, IsBacked};
ghost use Rattle.ff_headers.specs.Places.{RuleEntry, action_with, first_rule, place_of};
ghost use Rattle.matcher.specs.Candidates.{candidate_among, candidate_of, comes_before, earlier};

use ff_headers::{Action, Headers, RuleAction, RuleObj, matches};
use ff_store::Store;

/// Where a rule stands among the rules: its group's priority, its own in the group, and its id. The least is the first.
type Place = (u16, u8, u32);

/// What the walk keeps of a rule that matches.
#[derive(Clone, Copy, Debug, PartialEq, Eq)]
pub(crate) struct Candidate {
    pub(crate) place: Place,
    pub(crate) action: Action,
}

/// The first rule that matches.
pub(crate) fn first_candidate(store: &Store, headers: &Headers) -> Option<Candidate>
    requires { IsWellFormed store.now.limits store.now.objects }
    ensures { result ≡ option_map (candidate_of store.now.objects) (first_rule store.now.objects headers.now) }
{
    let mut first = None;
    for at in 0..store.rule_count() {
        first = earlier(first, candidate_at(store, headers, at));
    }
    first
}

/// The rule that is so many rules behind the one of least id, where it matches.
fn candidate_at(store: &Store, headers: &Headers, at: usize) -> Option<Candidate>
    requires inside { at < length store.now.objects.rules }
    requires well_formed { IsWellFormed store.now.limits store.now.objects }
    ensures { (entry : RuleEntry) → slice_get store.now.objects.rules at ≡ Some entry
        → result ≡ candidate_among store.now.objects headers.now entry }
{
    let (id, rule) = store.rule_at(at)?;
    candidate_from(store, headers, id, rule)
}

/// A rule, where it matches.
fn candidate_from(store: &Store, headers: &Headers, id: u32, rule: &RuleObj) -> Option<Candidate>
    requires { IsBacked store.now.objects rule.now }
    ensures { result ≡ candidate_among store.now.objects headers.now (id, rule.now) }
{
    let selectors = store.selectors(rule.classifier())?;
    if !matches(selectors, rule.key(), headers) {
        return None;
    }
    Some(Candidate {
        place: place_of(store, id, rule),
        action: action_with(rule.action(), rule.vq()),
    })
}

/// Where a rule stands among the rules. A group that isn't held counts as priority 0.
fn place_of(store: &Store, id: u32, rule: &RuleObj) -> Place
    ensures { result ≡ place_of store.now.objects (id, rule.now) }
{
    let group_priority = store.group_priority(rule.group()).unwrap_or(0);
    (group_priority, rule.priority(), id)
}

/// What a rule of this action and virtqueue index does: an even index names the receive queue of half its number.
pub(crate) fn action_with(action: RuleAction, vq: u16) -> Action
    ensures { result ≡ action_with action vq }
{
    match action {
        RuleAction::Drop => Action::Drop,
        RuleAction::Queue => Action::Queue(vq / 2),
    }
}

/// The first of two rules that match.
pub(crate) fn earlier(first: Option<Candidate>, next: Option<Candidate>) -> Option<Candidate>
    ensures { result ≡ earlier first next }
{
    match (first, next) {
        (Some(first), Some(next)) => Some(if comes_before(&next, &first) {
            next
        } else {
            first
        }),
        (None, next) => next,
        (first, None) => first,
    }
}

fn comes_before(a: &Candidate, b: &Candidate) -> bool
    ensures { result ≡ comes_before a.now b.now }
{
    a.place.cmp(&b.place).is_lt()
}
