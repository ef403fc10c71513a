//! Subprograms for formal ones (Ada RM 2012, 12.6).

ghost use Rattle.std.specs.Prelude.{◌≡◌, IfOk};
ghost use Rattle.ada_tree.specs.View.{owner_of};
ghost use Rattle.ada_rules.specs.Types as types;
ghost use Rattle.ada_rules.specs.Instances as rules;
ghost use Rattle.ada_entities.specs.Views.{identity_of};
ghost use Rattle.ada_entities.specs.EntityViews.{routine_of};
ghost use Rattle.specifications.specs.Matches.{type_as, formal_type, formal_parameter, formal_parameters, formal_result, formal_routine, routine_as, routine_through, Says};
ghost use Rattle.specifications.specs.Profiles.{parameter_seen, parameters_of, results_of};

use crate::conformance::same_mode;
use crate::instantiation::Instantiation;
use ada_entities::{AdaType, Identity, Parameter, ResultMark, Routine, RoutineName};
use ada_tree::Owner;
use program_walk::Symbols;
use std::alloc::AllocError;

/// Where subprograms are compared with formal ones: what is declared, and the instance that is being
/// made.
#[derive(Clone, Copy)]
pub(crate) struct Matching<'a> {
    pub(crate) symbols: &'a Symbols,
    pub(crate) instantiation: Instantiation<'a>,
}

impl Matching<'_> {
    /// Which type a type of the generic's text is.
    fn formal_identity(&self, of: AdaType, seen: Owner) -> Result<Identity, AllocError>
        ensures { IfOk result (λ i. Says self.now.symbols.now (λ k. identity_of i
            ≡ types.identity_of (formal_type self.now k (owner_of seen) of))) }
    {
        match seen {
            Owner::Here => Ok(self.instantiation.identity_seen(of)),
            Owner::Instance(_) => Ok(self.symbols.type_seen(of, seen)?.identity()),
        }
    }

    /// Whether a type of the generic's text is this one.
    fn same_type(
        &self,
        formal: AdaType,
        formal_seen: Owner,
        actual: AdaType,
        actual_seen: Owner,
    ) -> Result<bool, AllocError>
        ensures { IfOk result (λ b. Says self.now.symbols.now (λ k. b
            ≡ types.same_type (formal_type self.now k (owner_of formal_seen) formal)
            (type_as k (owner_of actual_seen) actual))) }
    {
        let formal = self.formal_identity(formal, formal_seen)?;
        let actual = self.symbols.type_seen(actual, actual_seen)?;
        Ok(formal.is_same(actual.identity()))
    }

    /// Whether a parameter has the mode and the type of a formal subprogram's.
    fn same_kind(
        &self,
        formal: &Parameter,
        formal_seen: Owner,
        actual: &Parameter,
        actual_seen: Owner,
    ) -> Result<bool, AllocError>
        ensures { IfOk result (λ b. Says self.now.symbols.now (λ k. b
            ≡ rules.same_kind (formal_parameter self.now k (owner_of formal_seen) formal.now)
            (parameter_seen k (owner_of actual_seen) actual.now))) }
    {
        if !same_mode(formal.mode, actual.mode) {
            return Ok(false);
        }
        self.same_type(
            formal.subtype.of,
            formal_seen,
            actual.subtype.of,
            actual_seen,
        )
    }

    /// Whether parameters have the modes and the types of a formal subprogram's.
    fn same_kinds(
        &self,
        formal: &[Parameter],
        formal_seen: Owner,
        actual: &[Parameter],
        actual_seen: Owner,
    ) -> Result<bool, AllocError>
        ensures { IfOk result (λ b. Says self.now.symbols.now (λ k. b
            ≡ rules.same_kinds (formal_parameters self.now k (owner_of formal_seen) formal.now)
            (parameters_of k (owner_of actual_seen) actual.now))) }
    {
        for (place, parameter) in formal.iter().enumerate() {
            match actual.get(place) {
                Some(other) => {
                    if !self.same_kind(parameter, formal_seen, other, actual_seen)? {
                        return Ok(false);
                    }
                }
                None => return Ok(false),
            }
        }
        Ok(actual.get(formal.len()).is_none())
    }

    /// Whether the result of a subprogram has the type of a formal one's, or both have none.
    fn same_results(
        &self,
        formal: Option<ResultMark>,
        formal_seen: Owner,
        actual: Option<ResultMark>,
        actual_seen: Owner,
    ) -> Result<bool, AllocError>
        ensures { IfOk result (λ b. Says self.now.symbols.now (λ k. b
            ≡ rules.same_results (formal_result self.now k (owner_of formal_seen) formal)
            (results_of k (owner_of actual_seen) actual))) }
    {
        match (formal, actual) {
            (Some(formal), Some(actual)) => {
                let given = actual.subtype.of;
                self.same_type(formal.subtype.of, formal_seen, given, actual_seen)
            }
            (None, None) => Ok(true),
            (Some(_), None) | (None, Some(_)) => Ok(false),
        }
    }

    /// Whether a subprogram has the modes and types of a formal one.
    fn same_routine(
        &self,
        formal: &Routine,
        formal_seen: Owner,
        actual: &Routine,
        actual_seen: Owner,
    ) -> Result<bool, AllocError>
        ensures { IfOk result (λ b. Says self.now.symbols.now (λ k. b
            ≡ rules.same_profile (formal_routine self.now k (owner_of formal_seen) formal.now)
            (routine_as k (owner_of actual_seen) actual.now))) }
    {
        let parameters = actual.parameters.as_slice();
        if !self.same_kinds(
            formal.parameters.as_slice(),
            formal_seen,
            parameters,
            actual_seen,
        )? {
            return Ok(false);
        }
        self.same_results(formal.result, formal_seen, actual.result, actual_seen)
    }

    /// Whether a subprogram has the modes and types of a formal one (RM 12.6). One whose number leads
    /// nowhere has no memory.
    pub(crate) fn same_profile(
        &self,
        formal: RoutineName,
        actual: RoutineName,
    ) -> Result<bool, AllocError>
        ensures { IfOk result (λ b. Says self.now.symbols.now (λ k. b
            ≡ rules.same_profile (routine_through self.now k (routine_of k formal)) (routine_of k actual))) }
    {
        let Some(wanted) = self.symbols.subprogram(formal.number) else {
            return Err(AllocError);
        };
        let Some(given) = self.symbols.subprogram(actual.number) else {
            return Err(AllocError);
        };
        self.same_routine(wanted, formal.seen, given, actual.seen)
    }
}
