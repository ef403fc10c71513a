//! The map of an object.

ghost use Rattle.std.specs.Prelude.{◌≡◌, ◌≢◌, ◌<◌, ◌↔◌, length, slice_get, IsTrue, IfOk, Some};
ghost use Rattle.cov_base.specs.declared.obligations.DecEntry.{DecEntry};
ghost use Rattle.cov_base.specs.Expr.{Expr, IsPostfixOf};
ghost use Rattle.cov_base.specs.Graph.{graph, IsTree};
ghost use Rattle.decision_map.specs.declared.condition.Condition.{Condition};
ghost use Rattle.decision_map.specs.Kinds.{has_edges, kind_in, kinds_of_text};
ghost use Rattle.decision_map.specs.Blocks.{block_end};
ghost use Rattle.decision_map.specs.Fits.{fault_of};
ghost use Rattle.std.specs.Result.{result_err};
ghost use Rattle.decision_map.specs.Decisions.{graph_at, is_tree_at};
ghost use Rattle.decision_map.specs.Roles.{condition_at, needs_history, kind_at, IsMappable, NeedsHistory};

use crate::blocks::block_end;
use crate::condition::{Condition, condition_of};
use crate::fault::FitFault;
use crate::fit;
use crate::graphs::{DecisionGraph, graphs_of};
use crate::keep::{keep_histories, role_at};
use crate::kind::{WordKind, kinds_of};
use crate::places::kind_in;
use crate::role_hints::RoleHints;
use condition_graph::Graph;
use cov_base::DecId;
use object_format::Object;
use std::alloc::{AllocError, Global};
use std::marker::Model;
use trace_format::TraceView;

/// What the words and branches of an object mean. Contracts see the object, since all else is a
/// function of it.
pub struct DecisionMap<'a> {
    object: &'a Object,
    kinds: Vec<WordKind>,
    graphs: Vec<DecisionGraph>,
}

// Written out: a derived drop is proved anew in each crate above.
impl Drop for DecisionMap<'_> {
    fn drop(self) {
        let DecisionMap {
            object: _,
            kinds: _,
            graphs: _,
        } = self;
    }
}

impl<'a> Model for DecisionMap<'a> {
    ghost use Rattle.object_format.specs.declared.object.Object.{Object};

    ghost Value = { Object };

    ghost use Rattle.decision_map.specs.Mapped.{IsMapOf};

    ghost view = { λ m. m.object.now };

    ghost invariant = { λ m. IsMapOf m.object.now m.kinds.items m.graphs.items };
}

impl<'a> DecisionMap<'a> {
    /// The map of an object.
    pub fn of(alloc: Global, object: &'a Object) -> Result<Self, AllocError>
        requires { IsMappable object.now }
        ensures { IfOk result (λ map. map ≡ object.now) }
    {
        let graphs = graphs_of(alloc, object.obligations.decisions.as_slice())?;
        let mut kinds = kinds_of(alloc, object.text.as_slice())?;
        keep_histories(object, graphs.as_slice(), kinds.as_mut_slice());
        Ok(DecisionMap {
            object,
            kinds,
            graphs,
        })
    }

    /// The object.
    pub fn object(&self) -> &'a Object
        ensures { result.now ≡ self.now }
    {
        self.object
    }

    /// How many words text has.
    pub(crate) fn words(&self) -> usize
        ensures count { result ≡ length self.now.text }
        ensures mappable { IsMappable self.now }
    {
        self.object.text.len()
    }

    /// The kind of the word at an address.
    pub fn kind(&self, pc: u32) -> WordKind
        ensures { result ≡ kind_at self.now pc }
    {
        kind_in(self.kinds.as_slice(), pc)
    }

    /// Whether the word at an address is a conditional branch.
    pub(crate) fn has_edges(&self, pc: u32) -> bool
        ensures { result ≡ has_edges (kind_in (kinds_of_text self.now.text) pc) }
    {
        kind_in(self.kinds.as_slice(), pc).has_edges()
    }

    /// Whether a run keeps each execution of the word at an address.
    pub fn needs_history(&self, pc: u32) -> bool
        ensures exact { result ≡ needs_history self.now pc }
        ensures meaning { IsTrue result ↔ NeedsHistory self.now pc }
    {
        kind_in(self.kinds.as_slice(), pc).keeps_history()
    }

    /// Where the block ends that starts at an address: at the first control transfer from there on.
    /// There is none where text ends, or something stops, before one comes.
    pub fn block_end(&self, start: u32) -> Option<u32>
        ensures { result ≡ block_end (kinds_of_text self.now.text) start }
    {
        block_end(self.kinds.as_slice(), start)
    }

    /// The condition that the branch at an address decides.
    pub fn condition(&self, pc: u32) -> Option<Condition>
        ensures { result ≡ condition_at self.now pc }
    {
        condition_of(role_at(self.object.roles.as_slice(), pc)?)
    }

    /// The same, with what was found before at hand.
    #[inline(always)]
    pub fn condition_by(&self, hints: &mut RoleHints, pc: u32) -> Option<Condition>
        ensures { result ≡ condition_at self.now pc }
    {
        condition_of(hints.role_at(self.object.roles.as_slice(), pc)?)
    }

    /// The graph of a decision.
    pub fn graph(&self, decision: DecId) -> &Graph
        requires { decision.0 < length self.now.obligations.decisions }
        ensures exact { result.now ≡ graph_at self.now decision.0 }
        ensures spelled { (entry : DecEntry) (e : Expr)
            → slice_get self.now.obligations.decisions decision.0 ≡ Some entry
            → IsPostfixOf entry.expression.postfix e → result.now ≡ graph e }
    {
        &self.graphs[decision.0 as usize].graph
    }

    /// Whether the graph of a decision is a tree.
    pub fn is_tree(&self, decision: DecId) -> bool
        requires { decision.0 < length self.now.obligations.decisions }
        ensures exact { result ≡ is_tree_at self.now decision.0 }
        ensures meaning { IsTrue result ↔ IsTree (graph_at self.now decision.0) }
    {
        self.graphs[decision.0 as usize].is_tree
    }

    /// Whether a trace can be one of the object: the checks from `foreign` to `history not flat`, of
    /// which the first that fails is answered.
    pub fn fit(&self, view: &TraceView<'_>) -> Result<(), FitFault>
        ensures { result_err result ≡ fault_of self.now view.now }
    {
        fit::check(self.object, self.kinds.as_slice(), view)
    }
}
