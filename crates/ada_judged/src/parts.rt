//! Components, elements and conversions (Ada RM 2012, 4.1.1, 4.1.3, 4.6).

ghost use Rattle.std.specs.Prelude.{◌≡◌, ◌||◌, option_map, IfOk};
ghost use Rattle.ada_meaning.specs.Tree as tree;
ghost use Rattle.ada_tree.specs.View.{with_selector};
ghost use Rattle.ada_entities.specs.ada_rules.specs.Denoted as rules;
ghost use Rattle.ada_entities.specs.Views.{subtype_of};
ghost use Rattle.ada_entities.specs.Tables.{parts_of};
ghost use Rattle.ada_entities.specs.TypeTable.{tables};
ghost use Rattle.ada_entities.specs.EntityViews.{Tables};
ghost use Rattle.ada_judged.specs.JudgedView.{is_indexed, variable_of, judged_of, conversion_to};
ghost use Rattle.ada_judged.specs.PartViews.{as_denoted, element_by, IsComponent, IsElement};

use crate::judged::{Form, Indexing, Judged, Spelling, Variable};
use crate::kind::Kind;
use ada_entities::{Subtype, Types, Values};
use ada_tree::{Expr, Selector};
use cov_base::{Pos, numbered};
use std::alloc::{AllocError, Global};

/// Whether an index stands in one of two parts of a name.
fn joined(first: Indexing, second: Indexing) -> Indexing
    ensures { is_indexed result ≡ (is_indexed first || is_indexed second) }
{
    match first {
        Indexing::Fixed => second,
        Indexing::Indexed => Indexing::Indexed,
    }
}

impl Variable {
    /// A part of an object: what one more selector leads to, of this subtype.
    fn part(
        self,
        selector: Selector,
        subtype: Subtype,
        indexing: Indexing,
    ) -> Result<Variable, AllocError>
        ensures { IfOk result (λ v. (k : Tables) → variable_of k v
            ≡ rules.part_of (variable_of k self) (subtype_of k.types subtype) (is_indexed indexing) (with_selector selector tree.whole)) }
    {
        let mut parts = self.parts;
        parts.push(selector)?;
        Ok(Variable {
            object: self.object,
            parts,
            subtype,
            access: self.access,
            indexing: joined(self.indexing, indexing),
            known: None,
            values: Values::Within(subtype.range),
        })
    }

    /// The component of a record with this name, in lower case (RM 4.1.3). None where the object's
    /// type has no such component. A component that is not among the first 2^32 has no memory.
    pub fn component(self, types: &Types, name: &[u8]) -> Result<Option<Variable>, AllocError>
        ensures { IfOk result (IsComponent (tables types.now) name.now self) }
    {
        match types.component_of(self.subtype.of, name) {
            Some((place, subtype)) => {
                let selector = Selector::Component(numbered(place)?);
                Ok(Some(self.part(selector, subtype, Indexing::Fixed)?))
            }
            None => Ok(None),
        }
    }
}

impl Variable {
    /// The element of an array at an index (RM 4.1.1), where these are the subtypes of its index and of
    /// its components. None where the index is of another type, or there is no array.
    fn element_with(
        self,
        index: Judged,
        parts: Option<(Subtype, Subtype)>,
    ) -> Result<Option<Variable>, AllocError>
        ensures { IfOk result (λ o. (k : Tables) → as_denoted k o
            ≡ element_by (variable_of k self) (judged_of k index) (option_map (parts_of k.types) parts)) }
    {
        let Some((subtype, component)) = parts else {
            drop((self, index));
            return Ok(None);
        };
        if !index.kind.fits(subtype.of) {
            drop((self, index));
            return Ok(None);
        }
        let selector = Selector::Element(subtype.range, index.into_expr());
        Ok(Some(self.part(selector, component, Indexing::Indexed)?))
    }

    /// The element of an array at an index (RM 4.1.1). None where the object is no array, or the index
    /// is of another type than its index.
    pub fn element(self, types: &Types, index: Judged) -> Result<Option<Variable>, AllocError>
        ensures { IfOk result (IsElement (tables types.now) index self) }
    {
        let parts = types.array_of(self.subtype.of);
        self.element_with(index, parts)
    }
}

impl Judged {
    /// A conversion to a scalar subtype (RM 4.6). None where this is not converted to it.
    pub fn converted(self, alloc: Global, subtype: Subtype) -> Result<Option<Judged>, AllocError>
        ensures { IfOk result (λ o. (k : Tables) → option_map (judged_of k) o
            ≡ conversion_to (subtype_of k.types subtype) (judged_of k self)) }
    {
        if !self.kind.converts(subtype.of) {
            drop(self);
            return Ok(None);
        }
        let expr = Expr::conversion(alloc, subtype.range, self.into_expr())?;
        Ok(Some(Judged {
            form: Form::Plain(expr),
            at: NOWHERE,
            kind: Kind::Of(subtype.of),
            known: None,
            values: Some(Values::Within(subtype.range)),
            spelling: Spelling::Other,
        }))
    }
}

/// The place of what has no place of its own yet.
const NOWHERE: Pos = Pos {
    file: 0,
    line: 1,
    col: 1,
};
