//! The nodes of subprograms, packages and library units.

ghost use Rattle.std.specs.Prelude.{◌≡◌, ◌+◌};
ghost use Rattle.ada_syntax.specs.Nodes as count;
ghost use Rattle.ada_syntax.specs.Nodes.{capped};

use crate::expr::Expr;
use crate::name::{Identifier, Name};
use crate::nodes::expressions::{nodes_of_expr, nodes_of_name};
use crate::nodes::statements::nodes_of_handled;
use crate::nodes::{Nodes, length_nodes, nodes_of_all, plus};
use crate::unit::{
    BodyItem, Formal, FormalKind, LibraryItem, Mode, PackageItem, Parameter, Specification,
    SubprogramBody, Unit, WithClause,
};
use cov_base::Seq;

impl Nodes for Expr {
    ghost nodes = { count.expr_nodes };

    fn nodes(&self) -> u32 {
        nodes_of_expr(self)
    }
}

fn nodes_of_mode(mode: Mode) -> u32
    ensures { result ≡ count.mode_nodes mode }
{
    match mode {
        Mode::Default => 0,
        Mode::In | Mode::Out => 1,
        Mode::InOut => 2,
    }
}

impl Nodes for Parameter {
    ghost nodes = { count.parameter_nodes };

    fn nodes(&self) -> u32 {
        plus(
            plus(length_nodes(self.names.len()), nodes_of_mode(self.mode)),
            nodes_of_name(&self.mark),
        )
    }
}

fn nodes_of_result(mark: &Option<Name>) -> u32
    ensures { result ≡ capped (count.if_present (λ n. 1 + count.name_nodes n) mark.now) }
{
    match mark {
        Some(name) => plus(1, nodes_of_name(name)),
        None => 0,
    }
}

impl Nodes for Specification {
    ghost nodes = { count.specification_nodes };

    fn nodes(&self) -> u32 {
        plus(
            plus(2, nodes_of_all(self.parameters.as_slice())),
            nodes_of_result(&self.result_mark),
        )
    }
}

fn nodes_of_end_name(name: &Option<Identifier>) -> u32
    ensures { result ≡ count.one_if_present name.now }
{
    match name {
        Some(_) => 1,
        None => 0,
    }
}

impl Nodes for SubprogramBody {
    ghost nodes = { count.body_nodes };

    fn nodes(&self) -> u32 {
        plus(
            plus(
                plus(self.specification.nodes(), 3),
                nodes_of_all(self.declarations.as_slice()),
            ),
            plus(
                nodes_of_handled(&self.statements),
                nodes_of_end_name(&self.end_name),
            ),
        )
    }
}

impl Nodes for PackageItem {
    ghost nodes = { count.package_item_nodes };

    fn nodes(&self) -> u32 {
        match self {
            PackageItem::Declaration(declaration) => declaration.nodes(),
            PackageItem::Subprogram(specification) => specification.nodes(),
        }
    }
}

impl Nodes for BodyItem {
    ghost nodes = { count.body_item_nodes };

    fn nodes(&self) -> u32 {
        match self {
            BodyItem::Declared(item) => item.nodes(),
            BodyItem::Body(body) => body.nodes(),
        }
    }
}

impl Nodes for Formal {
    ghost nodes = { count.formal_nodes };

    fn nodes(&self) -> u32 {
        match &self.kind {
            FormalKind::DiscreteType(_) => 4,
            FormalKind::IntegerType(_) => 5,
            FormalKind::Object(_, mode, mark) => {
                plus(1 + nodes_of_mode(*mode), nodes_of_name(mark))
            }
            FormalKind::Subprogram(specification) => plus(1, specification.nodes()),
        }
    }
}

fn nodes_of_formals(formals: &Option<Seq<Formal>>) -> u32
    ensures { result ≡ capped (count.generic_nodes formals.now) }
{
    match formals {
        Some(formals) => plus(1, nodes_of_all(formals.as_slice())),
        None => 0,
    }
}

impl Nodes for LibraryItem {
    ghost nodes = { count.item_nodes };

    fn nodes(&self) -> u32 {
        match self {
            LibraryItem::Package(package) => plus(
                plus(nodes_of_formals(&package.formals), 4),
                plus(
                    nodes_of_all(package.items.as_slice()),
                    nodes_of_end_name(&package.end_name),
                ),
            ),
            LibraryItem::PackageBody(body) => plus(
                plus(5, nodes_of_all(body.items.as_slice())),
                nodes_of_end_name(&body.end_name),
            ),
            LibraryItem::Instance(instance) => {
                plus(5, nodes_of_all(instance.actuals.as_slice()))
            }
            LibraryItem::Subprogram(body) => body.nodes(),
        }
    }
}

impl Nodes for WithClause {
    ghost nodes = { count.with_nodes };

    fn nodes(&self) -> u32 {
        plus(1, length_nodes(self.names.len()))
    }
}

/// The number of nodes of a subprogram's body. The count stands still at 2^32 - 1.
pub fn body_node_count(body: &SubprogramBody) -> u32
    ensures { result ≡ capped (count.body_nodes body.now) }
{
    body.nodes()
}

/// The number of nodes of what a unit declares, without its context clauses. The count stands still at
/// 2^32 - 1.
pub fn item_node_count(item: &LibraryItem) -> u32
    ensures { result ≡ capped (count.item_nodes item.now) }
{
    item.nodes()
}

/// The number of nodes of a unit: of its tokens but for `( ) , ; : . ' =>`. The count stands still
/// at 2^32 - 1.
pub fn node_count(unit: &Unit) -> u32
    ensures { result ≡ capped (count.unit_nodes unit.now) }
{
    plus(nodes_of_all(unit.withs.as_slice()), unit.item.nodes())
}
