//! What units and declarations of types weigh in a typed program, by the rules of the language
//! (Ada RM 2012, 3.6, 3.8, 12.3): definitions alone, which the checker meets (`checker`) and the laws of
//! legal programs speak of (`program_objects`).
//!
//! `specs/Entries.antt` has what the limits ask of the units, `specs/BodyEntries.antt` what they ask of the
//! bodies of subprograms, `specs/TypeWeights.antt` what types weigh, and
//! `specs/Wholes.antt` what whole programs come to.
#![tactic(auto)]
