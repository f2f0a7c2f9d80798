//! The names that a line may not use again, and those that it may refer to.
ghost use Rattle.std.specs.Prelude.{◌≡◌, ◌≤◌, ◌<◌, ◌+◌, length, [], IfOk, OnOk, map, if◌then◌else◌, Some, None};
ghost use Rattle.tc_entry.specs.declared.limits.TheConstants.{ARGUMENTS};
ghost use Rattle.tc_step.specs.{Prelude.{of_group, of_target, group_map, target_map}, declared.limits.TheConstants.STEPS};
ghost use Rattle.tc_reader.specs.{Campaign.place as the_place, FirstPass.argument_count, Inside.head_fault, Inside.if_bound, Inside.made_step, Inside.names_after, Inside.step_if_bound, Names.all_of, Names.has_twice, SecondPass.is_unbound, declared.line.Line.Line};

use crate::names::{Heads, Names, is_one_of};
use crate::{Call, Name, ScriptKind, Step};
use std::alloc::{AllocError, Global};
use std::marker::Model;
use tc_step::{GroupPlace, Place, Places, Run, TargetPlace};

/// The component that a line names.
fn place_at(bound: &Names, place: &Place<Name>) -> Option<Place>
    requires { length bound.now < ARGUMENTS + STEPS }
    ensures { result ≡ (if is_unbound bound.now place.now then None else Some (the_place bound.now place.now)) }
{
    match place {
        Place::Main => Some(Place::Main),
        Place::Own => Some(Place::Own),
        Place::Bound(name) => Some(Place::Bound(bound.find(name)? as u16)),
    }
}

/// The components that a start gives as arguments.
fn places_at(bound: &Names, named: &[Place<Name>]) -> Option<Places>
    requires few_bound { length bound.now < ARGUMENTS + STEPS }
    requires few { length named.now ≤ ARGUMENTS }
    ensures { result ≡ if_bound bound.now named.now (map (the_place bound.now) named.now) }
{
    let mut places = Places::new();
    for place in named {
        // By the clause `few` there is room.
        let _ = places.push(place_at(bound, place)?);
    }
    Some(places)
}

fn group_at(bound: &Names, group: &GroupPlace<Place<Name>>) -> Option<GroupPlace>
    requires { length bound.now < ARGUMENTS + STEPS }
    ensures { result ≡ if_bound bound.now (of_group group.now) (group_map (the_place bound.now) group.now) }
{
    match group {
        GroupPlace::One(place) => Some(GroupPlace::One(place_at(bound, place)?)),
        GroupPlace::All => Some(GroupPlace::All),
    }
}

fn target_at(bound: &Names, target: &TargetPlace<Place<Name>>) -> Option<TargetPlace>
    requires { length bound.now < ARGUMENTS + STEPS }
    ensures { result ≡ if_bound bound.now (of_target target.now) (target_map (the_place bound.now) target.now) }
{
    match target {
        TargetPlace::One(place) => Some(TargetPlace::One(place_at(bound, place)?)),
        TargetPlace::Any => Some(TargetPlace::Any),
        TargetPlace::All => Some(TargetPlace::All),
    }
}

/// The step of a call, if what it names is bound. The run of a start is set when its test case ends.
#[tactic(auto, unfolding(crate::specs::Campaign::step_of))]
fn step_at(bound: &Names, call: &Call) -> Option<Step>
    requires few_bound { length bound.now < ARGUMENTS + STEPS }
    requires few_arguments { argument_count call.now ≤ ARGUMENTS }
    ensures { result ≡ step_if_bound bound.now call.now }
{
    match call {
        Call::Create {
            alive,
            given_name,
            ..
        } => Some(Step::Create {
            alive: *alive,
            name: given_name.as_ref().map(Name::copy),
        }),
        Call::Start { on, args, .. } => Some(Step::Start {
            on: place_at(bound, on)?,
            run: Run(0),
            args: places_at(bound, args.as_slice())?,
        }),
        Call::Stop(group) => Some(Step::Stop(group_at(bound, group)?)),
        Call::Kill(group) => Some(Step::Kill(group_at(bound, group)?)),
        Call::Ask(status, target) => Some(Step::Ask(*status, target_at(bound, target)?)),
        Call::Wait { killed, target } => Some(Step::Wait {
            killed: *killed,
            target: target_at(bound, target)?,
        }),
        Call::StopCase => Some(Step::StopCase),
        Call::SetVerdict(setting) => Some(Step::SetVerdict(*setting)),
        Call::GetVerdict => Some(Step::GetVerdict),
    }
}

/// The names that a line may not use again, and those that it may refer to.
#[derive(Drop)]
pub(crate) struct Scope {
    pub cases: Names,
    pub bound: Names,
    pub heads: Heads,
}

impl Model for Scope {
    ghost use Rattle.tc_reader.specs.Inside.{NamesView};

    ghost Value = { NamesView };

    ghost view = { λ s. record { cases = s.cases; bound = s.bound; heads = s.heads } };
}

/// Whether one of the names is there twice.
fn any_twice(names: &[Name]) -> bool
    ensures { result ≡ has_twice names.now }
{
    let mut rest = names;
    while let Some((name, others)) = rest.split_first() {
        if is_one_of(name, others) {
            return true;
        }
        rest = others;
    }
    false
}

/// Binds these names, each once.
fn bind_all(names: &mut Names, parameters: &[Name]) -> Result<(), AllocError>
    requires { names.old ≡ [] }
    ensures { OnOk result (names.new ≡ all_of [] parameters.now) }
{
    for parameter in parameters {
        names.add(parameter.copy())?;
    }
    Ok(())
}

impl Scope {
    /// Continues after the line that begins a behaviour. It answers what is wrong with the names.
    pub(crate) fn take_behaviour(
        &mut self,
        name: &Name,
        parameters: &[Name],
    ) -> Result<Option<ScriptKind>, AllocError>
        ensures fault { IfOk result (λ kind. kind ≡ head_fault self.old.heads name.now parameters.now) }
        ensures names { OnOk result (self.new ≡ names_after self.old (Line.Behaviour name.now parameters.now)) }
    {
        let is_main = self.heads.is_empty();
        let is_there = self.heads.add(name, parameters.len())?;
        self.bound.clear();
        bind_all(&mut self.bound, parameters)?;
        if is_there || any_twice(parameters) {
            return Ok(Some(ScriptKind::Twice));
        }
        let is_wrong = is_main && !parameters.is_empty();
        Ok(is_wrong.then_some(ScriptKind::MainParameters))
    }

    /// Continues after a call. It answers the step, or what is wrong with the names. The behaviour of a start is looked up
    /// when its test case ends.
    pub(crate) fn take_call(&mut self, call: &Call) -> Result<Result<Step, ScriptKind>, AllocError>
        requires few_bound { length self.old.bound < ARGUMENTS + STEPS }
        requires few_arguments { argument_count call.now ≤ ARGUMENTS }
        ensures made { IfOk result (λ made. made ≡ made_step self.old.bound call.now) }
        ensures names { OnOk result (self.new ≡ names_after self.old (Line.Step call.now)) }
    {
        let step = step_at(&self.bound, call).ok_or(ScriptKind::NoReference);
        if let Call::Create { name, .. } = call
            && !self.bound.add(name.copy())?
        {
            return Ok(Err(ScriptKind::Twice));
        }
        Ok(step)
    }
}
