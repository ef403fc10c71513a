//! The names that are there before any unit: those of Standard, and the declarations of `Test_IO` (Ada
//! RM 2012, A.1).

ghost use Rattle.std.specs.Prelude.{◌≡◌, option_map};
ghost use Rattle.ada_rules.specs.Entities as rules;
ghost use Rattle.ada_entities.specs.EntityViews.{Tables, entity_of};
ghost use Rattle.ada_entities.specs.StandardCode.{declared_in, HasTestIo};

use crate::entity::{Completion, Entity, RoutineName};
use crate::types::{AdaType, Identity, ScalarType, Subtype};
use ada_tree::{ExceptionName, Owner, PredefinedException, Range, ScalarRange};

/// What a predefined name, in lower case, denotes.
pub fn predefined(name: &[u8]) -> Option<Entity>
    ensures { (k : Tables) → option_map (entity_of k) result ≡ rules.entity_of name.now rules.predefined_region }
{
    declared_in(&PREDEFINED, name)
}

/// What a name, in lower case, denotes in `Test_IO`. Its subprograms have the first two numbers.
pub fn test_io(name: &[u8]) -> Option<Entity>
    ensures { (k : Tables) → HasTestIo k → option_map (entity_of k) result ≡ rules.entity_of name.now rules.test_io_region }
{
    declared_in(&TEST_IO, name)
}

/// What a name denotes in a table.
#[tactic(auto, unfolding(crate::specs::StandardCode::declared_in))]
fn declared_in(table: &[(&str, Entity)], name: &[u8]) -> Option<Entity>
    ensures { result ≡ declared_in table.now name.now }
{
    table
        .iter()
        .find(|(spelling, _)| name == spelling.as_bytes())
        .map(|(_, entity)| *entity)
}

static PREDEFINED: [(&str, Entity); 9] = [
    (
        "integer",
        Entity::Mark(
            Identity::Integer,
            Subtype {
                of: AdaType::Scalar(ScalarType::Integer(Identity::Integer)),
                range: ScalarRange::Known(Range {
                    first: i32::MIN,
                    last: i32::MAX,
                }),
            },
        ),
    ),
    (
        "natural",
        Entity::Mark(
            Identity::Natural,
            Subtype {
                of: AdaType::Scalar(ScalarType::Integer(Identity::Integer)),
                range: ScalarRange::Known(Range {
                    first: 0,
                    last: i32::MAX,
                }),
            },
        ),
    ),
    (
        "positive",
        Entity::Mark(
            Identity::Positive,
            Subtype {
                of: AdaType::Scalar(ScalarType::Integer(Identity::Integer)),
                range: ScalarRange::Known(Range {
                    first: 1,
                    last: i32::MAX,
                }),
            },
        ),
    ),
    (
        "boolean",
        Entity::Mark(
            Identity::Boolean,
            Subtype {
                of: AdaType::Scalar(ScalarType::Enumeration(Identity::Boolean, 2)),
                range: ScalarRange::Known(Range { first: 0, last: 1 }),
            },
        ),
    ),
    (
        "false",
        Entity::Literal(
            AdaType::Scalar(ScalarType::Enumeration(Identity::Boolean, 2)),
            0,
        ),
    ),
    (
        "true",
        Entity::Literal(
            AdaType::Scalar(ScalarType::Enumeration(Identity::Boolean, 2)),
            1,
        ),
    ),
    (
        "constraint_error",
        Entity::Exception(ExceptionName::Predefined(PredefinedException::ConstraintError)),
    ),
    (
        "program_error",
        Entity::Exception(ExceptionName::Predefined(PredefinedException::ProgramError)),
    ),
    (
        "storage_error",
        Entity::Exception(ExceptionName::Predefined(PredefinedException::StorageError)),
    ),
];

static TEST_IO: [(&str, Entity); 3] = [
    (
        "end_error",
        Entity::Exception(ExceptionName::Predefined(PredefinedException::EndError)),
    ),
    (
        "get",
        Entity::Routine(RoutineName {
            number: 0,
            seen: Owner::Here,
            completion: Completion::Complete,
        }),
    ),
    (
        "put",
        Entity::Routine(RoutineName {
            number: 1,
            seen: Owner::Here,
            completion: Completion::Complete,
        }),
    ),
];
