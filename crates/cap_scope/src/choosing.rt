//! The choice of a definition.

ghost use Rattle.std.specs.Prelude.{◌≡◌, ◌<◌, length, map, All, find};
ghost use Rattle.std.specs.Option.{option_or};
ghost use Rattle.cap_scope.specs.Candidates.{list_of};
ghost use Rattle.cap_scope.specs.Chosen.{chosen, walked, decides as decides_by, as_bound as bound_choice, choice_of as choice_with, IsThere};

use crate::choice::{Candidate, Choice, Found, Rule};
use crate::object::Object;
use cap_names::system_v_hash;

/// Whether a definition ends the search.
fn decides(rule: Rule, candidate: Candidate) -> bool
    ensures { result ≡ decides_by rule candidate }
{
    match rule {
        Rule::NonWeak => candidate.is_strong,
        Rule::First => true,
    }
}

/// The definition, if it ends the search.
fn if_deciding(rule: Rule, found: Option<Candidate>) -> Option<Candidate>
    ensures { find (decides_by rule) (list_of found) ≡ result }
{
    match found {
        Some(candidate) => {
            if decides(rule, candidate) {
                Some(candidate)
            } else {
                None
            }
        }
        None => None,
    }
}

/// The earlier of two.
fn earlier(a: Option<Candidate>, b: Option<Candidate>) -> Option<Candidate>
    ensures { result ≡ option_or a b }
{
    a.or(b)
}

/// A definition by its binding.
fn as_bound(candidate: Candidate) -> Choice
    ensures { result ≡ bound_choice candidate }
{
    if candidate.is_strong {
        Choice::Strong(candidate.hit)
    } else {
        Choice::Weak(candidate.hit)
    }
}

/// The choice of this definition, if there is one.
fn choice_of(candidate: Option<Candidate>) -> Choice
    ensures { result ≡ choice_with candidate }
{
    match candidate {
        Some(candidate) => as_bound(candidate),
        None => Choice::None,
    }
}

/// The definition of a name in a scope, whose members are places in `objects`.
///
/// By the rule NonWeak it is the first GLOBAL one in the scope, else the first WEAK one; by the rule First it is the
/// first. The choice is None exactly where no symbol in the scope can be chosen and has the name. `walked` is the sum of
/// the chain entries that the look-up passes in each member of the scope, up to the first that is the object of the
/// definition; in all members where there is none, and by the rule NonWeak where it is WEAK. It takes no memory.
pub fn choose(objects: &[Object], scope: &[u32], name: &[u8], rule: Rule) -> Found
    requires members { All (λ i. i < length objects.now) scope.now }
    ensures there { IsThere objects.now result.choice }
    ensures choice { result.choice ≡ chosen rule (map (λ o. o.records) objects.now) scope.now name.now }
    ensures walked { result.walked ≡ walked rule (map (λ o. o.records) objects.now) scope.now name.now }
{
    let hash = system_v_hash(name);
    let mut first: Option<Candidate> = None;
    let mut walked = 0u128;
    for i in scope {
        let object = &objects[*i as usize];
        let here = object.look_up(*i, name, hash);
        walked += u128::from(here.walked);
        if let Some(candidate) = if_deciding(rule, here.found) {
            return Found {
                choice: as_bound(candidate),
                walked,
            };
        }
        first = earlier(first, here.found);
    }
    Found {
        choice: choice_of(first),
        walked,
    }
}
