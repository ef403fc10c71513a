//! Assignments, and the variables that they set (Ada RM 2012, 5.2).

ghost use Rattle.std.specs.Prelude.{◌≡◌, option_map};
ghost use Rattle.ada_meaning.specs.Tree as tree;
ghost use Rattle.ada_tree.specs.View.{label_of, object_of, parts_of, value_of};
ghost use Rattle.ada_rules.specs.Statements as rules;
ghost use Rattle.ada_entities.specs.EntityViews.{Tables};
ghost use Rattle.ada_judged.specs.JudgedView.{variable_of};
ghost use Rattle.ada_phrases.specs.declared.names.Denoted.TheVariants as denoted;
ghost use Rattle.ada_phrases.specs.DenotedView.{denotes};
ghost use Rattle.object_values.specs.program_walk.specs.Sites.{ComesTo};
ghost use Rattle.statement_parts.specs.Simple.{assigning, States};

use crate::typing::typed;
use ada_entities::{Access, Refusal, Subtype, Values};
use ada_judged::{Indexing, Variable};
use ada_phrases::{Decisions, Denoted};
use ada_syntax::{Initial, Name};
use ada_tree::{Label, NewValue, Object, Statement, StatementKind};
use cov_base::Failure;
use object_values::{Site, new_value};
use std::alloc::Global;

/// What the step of names goes on with.
fn any_variable(alloc: Global) -> Variable
    ensures { (k : Tables) → variable_of k result ≡ rules.any_variable }
{
    let subtype = Subtype::integer();
    Variable {
        object: Object::Local(0),
        parts: Vec::new(alloc),
        subtype,
        access: Access::Variable,
        indexing: Indexing::Fixed,
        known: None,
        values: Values::Within(subtype.range),
    }
}

/// An object, where it may be assigned (RM 3.3).
fn assignable(variable: Variable) -> Option<Variable>
    ensures { (k : Tables) → option_map (variable_of k) result
        ≡ rules.writable (denotes k (denoted.Variable variable)) }
{
    match variable.access {
        Access::Variable => Some(variable),
        Access::Constant => {
            drop(variable);
            None
        }
    }
}

/// What a name denotes, where it may be assigned.
fn writable(denoted: Denoted) -> Option<Variable>
    ensures { (k : Tables) → option_map (variable_of k) result ≡ rules.writable (denotes k denoted) }
{
    match denoted {
        Denoted::Variable(variable) => assignable(variable),
        other => {
            drop(other);
            None
        }
    }
}

/// The target of an assignment: a variable, or a part of one. Refused at the rules' own place.
#[tactic(auto, using(crate::proofs::Ends::parts))]
pub fn target(
    alloc: Global,
    site: &Site<'_>,
    decisions: &mut Decisions,
    name: &Name,
) -> Result<Variable, Failure<Refusal>>
    ensures { ComesTo variable_of site.now decisions.old decisions.new
        (λ env s. (rules.target env s name.now).answer) result }
{
    let denoted = site.denoted(alloc, decisions, name)?;
    typed(
        site.step,
        name.pos(),
        any_variable(alloc),
        writable(denoted),
    )
}

/// An assignment of a value to an object or to a part of one.
fn assigned(label: Label, target: Variable, value: NewValue) -> Statement
    ensures { result
        ≡ tree.assignment (label_of label) (object_of target.object) (parts_of target.parts.items) (value_of value) }
{
    if target.parts.is_empty() {
        return Statement {
            kind: StatementKind::Assignment(label, target.object, value),
        };
    }
    Statement {
        kind: StatementKind::PartAssignment(label, target.object, target.parts, value),
    }
}

/// An assignment behind its label, whose place is that of its first token. Refused at the rules' own place.
#[tactic(auto, using(crate::proofs::Ends::parts))]
pub fn assignment(
    alloc: Global,
    site: &Site<'_>,
    decisions: &mut Decisions,
    label: Label,
    name: &Name,
    initial: &Initial,
) -> Result<Statement, Failure<Refusal>>
    ensures { States site.now decisions.old decisions.new label
        (λ l env s. assigning l env s name.now initial.now) result }
{
    let target = target(alloc, site, decisions, name)?;
    let set = new_value(alloc, site, decisions, label.place, target.subtype, initial)?;
    Ok(assigned(label, target, set.value))
}
