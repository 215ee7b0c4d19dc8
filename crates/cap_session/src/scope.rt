//! Libraries that were opened, and where the names of an object are looked up.

ghost use Rattle.std.specs.Prelude.{◌≡◌, ◌++◌, ◌∷◌, [], flat_map, filter, OnOk, IfOk, if◌then◌else◌};
ghost use Rattle.cap_base.specs.Lists.{numbers_between};
ghost use Rattle.cap_session.specs.Scope.{is_global_opening, reaches as reaches_object, scope_of as scope_list};

use crate::refusal::Mode;
use cap_base::NoMemory;
use cap_scope::Rule;
use std::alloc::Global;
use std::marker::Model;

/// A library that was opened: whom it reaches, and its tree.
#[derive(Drop)]
pub(crate) struct Opened {
    mode: Mode,
    tree: Vec<u32>,
}

impl Model for Opened {
    ghost use Rattle.cap_session.specs.Scope.{Opening};

    ghost Value = { Opening };

    ghost view = { λ o. record { mode = o.mode; tree = o.tree.items } };
}

impl Opened {
    pub(crate) fn new(mode: Mode, tree: Vec<u32>) -> Opened
        ensures { result ≡ record { mode = mode; tree = tree.items } }
    {
        Opened { mode, tree }
    }

    fn tree(&self) -> &[u32]
        ensures { result.now ≡ self.now.tree }
    {
        &self.tree
    }

    /// Whether all objects that are loaded from then on see its definitions.
    fn is_global(&self) -> bool
        ensures { result ≡ is_global_opening self.now }
    {
        self.mode == Mode::Global
    }

    /// Whether the object sees its definitions as one of its own tree.
    fn reaches(&self, i: u32) -> bool
        ensures { result ≡ reaches_object i self.now }
    {
        self.mode == Mode::Local && self.tree.contains(&i)
    }
}

/// The objects in which the names of an object are looked up, in order.
pub(crate) fn scope_of(
    alloc: Global,
    symbolic: bool,
    start_count: u32,
    openings: &[Opened],
    i: u32,
) -> Result<Vec<u32>, NoMemory>
    ensures { IfOk result (λ scope. scope.items ≡ scope_list symbolic start_count openings.now i) }
{
    let mut scope = Vec::new(alloc);
    add_itself(&mut scope, symbolic, i)?;
    add_start(&mut scope, start_count)?;
    add_global_trees(&mut scope, openings)?;
    add_local_trees(&mut scope, openings, i)?;
    Ok(scope)
}

fn add_itself(scope: &mut Vec<u32>, symbolic: bool, i: u32) -> Result<(), NoMemory>
    ensures { OnOk result (scope.new.items ≡ scope.old.items ++ (if symbolic then i ∷ [] else [])) }
{
    if symbolic {
        scope.push(i)?;
    }
    Ok(())
}

fn add_start(scope: &mut Vec<u32>, start_count: u32) -> Result<(), NoMemory>
    ensures { OnOk result (scope.new.items ≡ scope.old.items ++ numbers_between 0 start_count) }
{
    for i in 0..start_count {
        scope.push(i)?;
    }
    Ok(())
}

fn add_global_trees(scope: &mut Vec<u32>, openings: &[Opened]) -> Result<(), NoMemory>
    ensures { OnOk result (scope.new.items ≡ scope.old.items ++ flat_map (λ o. o.tree) (filter is_global_opening openings.now)) }
{
    for opened in openings {
        if opened.is_global() {
            scope.extend_from_slice(opened.tree())?;
        }
    }
    Ok(())
}

fn add_local_trees(scope: &mut Vec<u32>, openings: &[Opened], i: u32) -> Result<(), NoMemory>
    ensures { OnOk result (scope.new.items ≡ scope.old.items ++ flat_map (λ o. o.tree) (filter (reaches_object i) openings.now)) }
{
    for opened in openings {
        if opened.reaches(i) {
            scope.extend_from_slice(opened.tree())?;
        }
    }
    Ok(())
}

/// How names are looked up: the rule, how many objects the start loaded, and the libraries that were opened since.
#[derive(Drop)]
pub(crate) struct LookUp {
    pub(crate) rule: Rule,
    pub(crate) start_count: u32,
    pub(crate) openings: Vec<Opened>,
}
