//! The nodes of declarations.

ghost use Rattle.std.specs.Prelude.{◌≡◌, ◌+◌, length};
ghost use Rattle.ada_syntax.specs.Nodes as count;
ghost use Rattle.ada_syntax.specs.Nodes.{capped};

use crate::declaration::{
    Bounds, Component, Constancy, Declaration, DeclarationKind, DiscreteRange, Initial, Pragma,
    SubtypeIndication, TypeDefinition,
};
use crate::nodes::expressions::{nodes_of_expr, nodes_of_name};
use crate::nodes::{Nodes, length_nodes, nodes_of_all, plus};

impl Nodes for Bounds {
    ghost nodes = { count.bounds_nodes };

    fn nodes(&self) -> u32 {
        plus(plus(nodes_of_expr(&self.low), 1), nodes_of_expr(&self.high))
    }
}

pub fn nodes_of_range(range: &DiscreteRange) -> u32
    ensures { result ≡ capped (count.range_nodes range.now) }
{
    match range {
        DiscreteRange::Mark(name) => nodes_of_name(name),
        DiscreteRange::Bounds(bounds) => bounds.nodes(),
    }
}

fn nodes_of_constraint(constraint: &Option<Bounds>) -> u32
    ensures { result ≡ capped (count.if_present (λ b. 1 + count.bounds_nodes b) constraint.now) }
{
    match constraint {
        Some(bounds) => plus(1, bounds.nodes()),
        None => 0,
    }
}

fn nodes_of_indication(indication: &SubtypeIndication) -> u32
    ensures { result ≡ capped (count.indication_nodes indication.now) }
{
    plus(
        nodes_of_name(&indication.mark),
        nodes_of_constraint(&indication.constraint),
    )
}

pub fn nodes_of_initial(initial: &Initial) -> u32
    ensures { result ≡ capped (count.initial_nodes initial.now) }
{
    plus(
        length_nodes(initial.others.len()),
        nodes_of_expr(&initial.value),
    )
}

impl Nodes for Component {
    ghost nodes = { count.component_nodes };

    fn nodes(&self) -> u32 {
        plus(
            length_nodes(self.names.len()),
            nodes_of_indication(&self.indication),
        )
    }
}

fn nodes_of_definition(definition: &TypeDefinition) -> u32
    ensures { result ≡ capped (count.definition_nodes definition.now) }
{
    match definition {
        TypeDefinition::Integer(bounds) => plus(1, bounds.nodes()),
        TypeDefinition::Enumeration(names) => length_nodes(names.len()),
        TypeDefinition::Array(range, component) => plus(
            plus(2, nodes_of_range(range)),
            nodes_of_indication(component),
        ),
        TypeDefinition::Record(components) => plus(3, nodes_of_all(components.as_slice())),
    }
}

fn nodes_of_constancy(constancy: Constancy) -> u32
    ensures { result ≡ count.constancy_nodes constancy }
{
    match constancy {
        Constancy::Variable => 0,
        Constancy::Constant => 1,
    }
}

pub fn nodes_of_pragma(exemption: &Pragma) -> u32
    ensures { result ≡ count.pragma_nodes exemption.now }
{
    match exemption {
        Pragma::ExemptOn(_) => 5,
        Pragma::ExemptOff => 4,
    }
}

fn nodes_of_first_value(initial: &Option<Initial>) -> u32
    ensures { result ≡ capped (count.if_present (λ i. 1 + count.initial_nodes i) initial.now) }
{
    match initial {
        Some(initial) => plus(1, nodes_of_initial(initial)),
        None => 0,
    }
}

impl Nodes for Declaration {
    ghost nodes = { count.declaration_nodes };

    fn nodes(&self) -> u32 {
        match &self.kind {
            DeclarationKind::Type(_, definition) => plus(3, nodes_of_definition(definition)),
            DeclarationKind::Subtype(_, indication) => plus(3, nodes_of_indication(indication)),
            DeclarationKind::Object(names, constancy, indication, initial) => plus(
                plus(length_nodes(names.len()), nodes_of_constancy(*constancy)),
                plus(
                    nodes_of_indication(indication),
                    nodes_of_first_value(initial),
                ),
            ),
            DeclarationKind::Exception(names) => plus(length_nodes(names.len()), 1),
            DeclarationKind::Pragma(exemption) => nodes_of_pragma(exemption),
        }
    }
}
