//! Which question the words of a job ask.

ghost use Rattle.std.specs.Prelude.{◌≡◌, ◌+◌, IfErr, IfOk, IfSome, length, map};
ghost use Rattle.net_check.specs.Network.{entry, network, unknown_width};
ghost use Rattle.sefl_syntax.specs.Trees as trees;
ghost use Rattle.sefl_syntax.specs.Views.{ask_tree};
ghost use Rattle.path_questions.specs.Asked.{AreAsked, AsksSome, FoundField, FoundOutput, FoundPlace, IsAsked, IsBadAsk, IsFault};

use crate::question::{InjectedField, Question};
use net_check::{Injection, Net};
use sefl_meaning::Place;
use sefl_syntax::{Ask, RawField, RawPlace, Side, Target};
use sn_width::NoMemory;
use std::alloc::Global;

/// Why the words of a job ask no question.
#[derive(Clone, Copy)]
pub enum AskFault {
    /// The place is not in the net; or it is an input port, where packets are to be delivered.
    NoPlace,
    /// The target is no field of the injection.
    NoField,
    NoMemory,
}

impl From<NoMemory> for AskFault {
    ghost use Rattle.std.specs.Prelude.{◌≡◌};
    ghost use Rattle.path_questions.specs.declared.placing.AskFault.TheVariants.{NoMemory as OutOfMemory};

    ghost from_gives = { λ _ fault. fault ≡ OutOfMemory };

    fn from(_error: NoMemory) -> AskFault {
        AskFault::NoMemory
    }
}

/// The port that the words name; None exactly where the net has none.
fn place_of(net: &Net, raw: &RawPlace) -> Option<Place>
    ensures { FoundPlace (network net.now) raw.now result }
{
    let node = net.node_id(&raw.node)?;
    if raw.port >= net.ports(node, raw.side) {
        return None;
    }
    Some(Place {
        node,
        side: raw.side,
        port: raw.port,
    })
}

/// The output port that the words name; None exactly where they name none of the net.
fn output_of(net: &Net, raw: &RawPlace) -> Option<Place>
    ensures { FoundOutput (network net.now) raw.now result }
{
    match place_of(net, raw) {
        None => None,
        Some(place) => {
            if raw.side == Side::Inward {
                return None;
            }
            Some(place)
        }
    }
}

/// The number of unknown fields behind a field, where there are `number` before it; None where it is no number.
fn number_behind(number: u64, field: &RawField) -> Option<u64>
    ensures { IfSome result (λ next. next ≡ number + length (unknown_width field.now)) }
{
    match field.value {
        None => number.checked_add(1),
        Some(_) => Some(number),
    }
}

/// The first of the fields with the words of the target; None exactly where there is none.
fn field_of<'a>(
    fields: &'a [RawField],
    target: &'a Target,
) -> Result<Option<InjectedField<'a>>, NoMemory>
    ensures { IfOk result (FoundField 0 target.now fields.now) }
{
    let mut number: u64 = 0;
    for field in fields {
        if field.target == *target {
            let given = field.value;
            return Ok(Some(InjectedField {
                target,
                given,
                number,
            }));
        }
        let Some(next) = number_behind(number, field) else {
            return Err(NoMemory);
        };
        number = next;
    }
    Ok(None)
}

/// The question of these words, whether a target is invariant at a place, or why they ask none.
fn invariant_of<'a>(
    net: &Net,
    injection: &'a Injection,
    target: &'a Target,
    raw: &RawPlace,
) -> Result<Question<'a>, AskFault>
    ensures asked { IfOk result (IsAsked (network net.now) (entry injection.now) (trees.invariant target.now raw.now)) }
    ensures refused { IfErr result (IsFault (network net.now) (entry injection.now)
        (trees.invariant target.now raw.now)) }
{
    match output_of(net, raw) {
        None => Err(AskFault::NoPlace),
        Some(place) => match field_of(&injection.raw().fields, target)? {
            None => Err(AskFault::NoField),
            Some(field) => Ok(Question::Invariant { place, field }),
        },
    }
}

/// The question of these words, whether a target is visible at a place, or why they ask none.
fn visible_of<'a>(
    net: &Net,
    injection: &'a Injection,
    target: &'a Target,
    raw: &RawPlace,
) -> Result<Question<'a>, AskFault>
    ensures asked { IfOk result (IsAsked (network net.now) (entry injection.now) (trees.visible target.now raw.now)) }
    ensures refused { IfErr result (IsFault (network net.now) (entry injection.now)
        (trees.visible target.now raw.now)) }
{
    match place_of(net, raw) {
        None => Err(AskFault::NoPlace),
        Some(place) => match field_of(&injection.raw().fields, target)? {
            None => Err(AskFault::NoField),
            Some(field) => Ok(Question::Visible { place, field }),
        },
    }
}

/// The question that the words ask, or why they ask none: a place that is not there comes before a field that is not injected.
pub fn question_of<'a>(
    net: &Net,
    injection: &'a Injection,
    ask: &'a Ask,
) -> Result<Question<'a>, AskFault>
    ensures asked { IfOk result (IsAsked (network net.now) (entry injection.now) (ask_tree ask.now)) }
    ensures refused { IfErr result (IsFault (network net.now) (entry injection.now) (ask_tree ask.now)) }
{
    match ask {
        Ask::Reach { place, test } => match place_of(net, place) {
            None => Err(AskFault::NoPlace),
            Some(place) => Ok(Question::Reach { place, test }),
        },
        Ask::Invariant { target, place } => invariant_of(net, injection, target, place),
        Ask::Visible { target, place } => visible_of(net, injection, target, place),
    }
}

/// Whether the words ask a question, or why not.
pub fn placed(net: &Net, injection: &Injection, ask: &Ask) -> Result<(), AskFault>
    ensures asked { IfOk result (λ done. AsksSome (network net.now) (entry injection.now) (ask_tree ask.now)) }
    ensures refused { IfErr result (IsFault (network net.now) (entry injection.now) (ask_tree ask.now)) }
{
    let _question = question_of(net, injection, ask)?;
    Ok(())
}

/// The first question that is refused, and why.
#[derive(Clone, Copy)]
pub struct BadAsk {
    pub number: u64,
    pub fault: AskFault,
}

/// The questions that the words ask, in their order; or the first words that ask none.
pub fn questions_of<'a>(
    alloc: Global,
    net: &Net,
    injection: &'a Injection,
    asks: &'a [Ask],
) -> Result<Vec<Question<'a>>, BadAsk>
    ensures asked { IfOk result (λ questions. AreAsked (network net.now) (entry injection.now) (map ask_tree asks.now)
        questions.items) }
    ensures refused { IfErr result (λ bad. IsBadAsk (network net.now) (entry injection.now) (map ask_tree asks.now)
        bad.number bad.fault) }
{
    let mut questions = Vec::new(alloc);
    let mut number: u64 = 0;
    for ask in asks {
        match question_of(net, injection, ask) {
            Err(fault) => return Err(BadAsk { number, fault }),
            Ok(question) => {
                let fault = AskFault::NoMemory;
                let Ok(()) = questions.push(question) else {
                    return Err(BadAsk { number, fault });
                };
                let Some(next) = number.checked_add(1) else {
                    return Err(BadAsk { number, fault });
                };
                number = next;
            }
        }
    }
    Ok(questions)
}
