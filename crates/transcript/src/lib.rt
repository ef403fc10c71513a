//! What the executed instructions of a run tell of the coverage of its source: the events of a
//! transcript, what a trace keeps of it, and what the trace says. The definitions stand in `specs/`
//! and speak of functions alone, [`Facts`](../specs/Facts.antt): which address holds which row and
//! which condition, and which graph a decision has. The functions here do nothing: each carries a
//! law of the definitions as its contract.
//!
//! The contract that the layers above use: [`a_trace_says_what_its_run_tells`].
#![tactic(auto)]

ghost use Rattle.std.specs.Prelude.{◌≡◌, ◌↔◌, ◌⊎◌, ◌||◌, ◌%◌, ◌++◌, ℕ, zero, Bool, true, false, List, [], ◌∷◌, map, Option, Some, None};
ghost use Rattle.cov_base.specs.declared.event.Event.{Event};
ghost use Rattle.cov_base.specs.declared.event.Event.TheVariants.{Done};
ghost use Rattle.cov_base.specs.declared.event.Vector.{Vector};
ghost use Rattle.cov_base.specs.declared.position.DecId.{DecId};
ghost use Rattle.cov_base.specs.declared.position.InstId.{InstId};
ghost use Rattle.rv_semantics.specs.declared.stepped.Seen.{Seen};
ghost use Rattle.cov_base.specs.Graph.{node, leaf, next_in};
ghost use Rattle.cov_base.specs.Lists.{Somewhere, Everywhere};
ghost use Rattle.cov_base.specs.Path.{Step, IsPathVector, IsVectorOfLeaf, vector_of};
ghost use Rattle.transcript.specs.Computed.{path_to, completed, done_of, reading_from, reading};
ghost use Rattle.transcript.specs.Facts.{Facts, AreFair};
ghost use Rattle.transcript.specs.Pieces.{Piece, closed_from, closed, left_open, pieces, RunsOnFrom, RunsOn, IsEnded, IsOpenIn, IsPieceOf, Covers, set_of, Rise, StartsRise};
ghost use Rattle.transcript.specs.Reading.{Completes, EndsWith, AreEventsFrom, AreEventsOf, IsCompletedFrom, Tells, Follows, AllFollow, IsDisciplined};
ghost use Rattle.transcript.specs.Replay.{Half, Keeps, nothing_kept, begun, with_step, half_by, over_by, put_half, replay, BreaksAt};
ghost use Rattle.transcript.specs.Trace.{Trace, took, piece_of, trace_of, visits_in, without_trees, IsOfNoTree, HasEdges, IsFlagged, Says};
ghost use Rattle.transcript.specs.Visit.{Key, Visit, visits, same_key, steps, onto};

/// What the trace of a run says is what the transcript of the run tells: that statements started,
/// that evaluations of tree decisions were completed, by the flags of blocks, and that evaluations
/// of the others were, by the history. The transcript may have been cut off anywhere.
#[tactic(auto, using(crate::proofs::SaidLaw::said_law))]
pub fn a_trace_says_what_its_run_tells()
    ensures { (o : Facts) (ss : List Seen) (e : Event) → AreFair o → RunsOn o ss → IsDisciplined o ss
        → Says o (trace_of o ss) e ↔ Tells o ss e }
{}

/// The events of a transcript are the list that is computed, whatever was visited before it.
pub fn the_events_of_a_transcript_are_computed()
    ensures whole { (o : Facts) (ss : List Seen) (es : List Event) → AreFair o → AreEventsOf o ss es ↔ (es ≡ reading o ss) }
    ensures part { (o : Facts) (past : List Visit) (ss : List Seen) (es : List Event) → AreFair o
        → AreEventsFrom o past ss es ↔ (es ≡ reading_from o past ss) }
{}

/// A transcript tells the events in that list.
#[tactic(auto, using(crate::proofs::Told::told_law))]
pub fn a_transcript_tells_its_events()
    ensures { (o : Facts) (ss : List Seen) (e : Event) → AreFair o
        → Tells o ss e ↔ Somewhere (λ x. x ≡ e) (reading o ss) }
{}

/// Steps end with at most one path from the root to a node, and a visit completes an evaluation with
/// at most one vector: those that are computed.
pub fn paths_and_vectors_are_computed()
    ensures path { (o : Facts) → AreFair o → (d : DecId) (all : List Step) (n : ℕ) (path : List Step)
        → (path_to (o.graph d) all n ≡ Some path) ↔ EndsWith (o.graph d) all n path }
    ensures vector { (o : Facts) → AreFair o → (past : List Visit) (v : Visit) (vector : Vector)
        → Completes o past v vector ↔ (completed o past v ≡ Some vector) }
{}

/// Each vector that a transcript tells, or a trace says, is of a path of its decision's graph. On a
/// tree there is one vector for each edge to an outcome.
pub fn vectors_are_of_paths()
    ensures told { (o : Facts) (ss : List Seen) (d : DecId) (i : InstId) (vector : Vector) → Tells o ss (Done d i vector)
        → IsPathVector (o.graph d) vector }
    ensures said { (o : Facts) (t : Trace) (d : DecId) (i : InstId) (vector : Vector) → Says o t (Done d i vector)
        → IsPathVector (o.graph d) vector }
    ensures one { (o : Facts) → AreFair o → (d : DecId) → o.tree d ≡ true → (k : ℕ) (value : Bool) (v w : Vector)
        → IsVectorOfLeaf (o.graph d) k value v → IsVectorOfLeaf (o.graph d) k value w → v ≡ w }
{}

/// How an evaluation goes, visit by visit, in any past: it begins at the root; a visit at the node
/// that it has come to follows, and takes it to another node or completes it.
pub fn an_evaluation_goes_visit_by_visit()
    ensures begins { (o : Facts) (d : DecId) (all : List Step) → path_to (o.graph d) all zero ≡ Some [] }
    ensures follows { (o : Facts) (past : List Visit) (v : Visit) (path : List Step)
        → path_to (o.graph v.key.decision) (steps v.key past) v.step.at_node ≡ Some path → Follows o past v }
    ensures goes_on { (o : Facts) → AreFair o → (past : List Visit) (v : Visit) (path : List Step) (n : ℕ)
        → path_to (o.graph v.key.decision) (steps v.key past) v.step.at_node ≡ Some path
        → next_in (o.graph v.key.decision) v.step.at_node v.step.value ≡ node n
        → (path_to (o.graph v.key.decision) (steps v.key (v ∷ past)) n ≡ Some (v.step ∷ path)) × (completed o past v ≡ None) }
    ensures completes { (o : Facts) (past : List Visit) (v : Visit) (path : List Step) (outcome : Bool)
        → path_to (o.graph v.key.decision) (steps v.key past) v.step.at_node ≡ Some path
        → next_in (o.graph v.key.decision) v.step.at_node v.step.value ≡ leaf outcome
        → completed o past v ≡ Some (vector_of (v.step ∷ path)) }
{}

/// A transcript of two parts has the events of both, and is disciplined where both are; the second
/// part comes after the visits of the first.
pub fn transcripts_are_read_in_parts()
    ensures visits { (o : Facts) (xs ys : List Seen) → visits o (xs ++ ys) ≡ visits o xs ++ visits o ys }
    ensures past { (xs ys past : List Visit) → onto (xs ++ ys) past ≡ onto ys (onto xs past) }
    ensures events { (o : Facts) (xs ys : List Seen) (past : List Visit)
        → reading_from o past (xs ++ ys) ≡ reading_from o past xs ++ reading_from o (onto (visits o xs) past) ys }
    ensures completed { (o : Facts) (xs ys past : List Visit) (d : DecId) (i : InstId) (vector : Vector)
        → IsCompletedFrom o past (xs ++ ys) d i vector
        ↔ (IsCompletedFrom o past xs d i vector ⊎ IsCompletedFrom o (onto xs past) ys d i vector) }
    ensures disciplined { (o : Facts) (xs ys past : List Visit)
        → AllFollow o past (xs ++ ys) ↔ (AllFollow o past xs × AllFollow o (onto xs past) ys) }
{}

/// Instructions that hold neither a row nor a condition tell nothing.
pub fn other_instructions_tell_nothing()
    ensures events { (o : Facts) (past : List Visit) (ss : List Seen) → Everywhere (λ s. (o.row s.pc ≡ None) × (o.condition s.pc ≡ None)) ss
        → reading_from o past ss ≡ [] }
    ensures visits { (o : Facts) (ss : List Seen) → Everywhere (λ s. o.condition s.pc ≡ None) ss → visits o ss ≡ [] }
{}

/// A transcript of two parts has the closed pieces, the taken edges and the history of both; the
/// second part begins with the piece that the first leaves open.
pub fn transcripts_are_cut_in_parts()
    ensures runs { (o : Facts) (xs ys : List Seen) (p : Option Piece)
        → RunsOnFrom o p (xs ++ ys) ↔ (RunsOnFrom o p xs × RunsOnFrom o (left_open o p xs) ys) }
    ensures closed { (o : Facts) (xs ys : List Seen) (p : Option Piece)
        → closed_from o p (xs ++ ys) ≡ closed_from o p xs ++ closed_from o (left_open o p xs) ys }
    ensures open_piece { (o : Facts) (xs ys : List Seen) (p : Option Piece)
        → left_open o p (xs ++ ys) ≡ left_open o (left_open o p xs) ys }
    ensures ended { (o : Facts) (ss : List Seen) (s : Seen) → IsEnded o (ss ++ s ∷ []) ↔ (o.transfers s.pc ≡ true) }
    ensures edges { (xs ys : List Seen) (pc : ℕ) (taken : Bool)
        → took (xs ++ ys) pc taken ≡ (took xs pc taken || took ys pc taken) }
    ensures history { (o : Facts) (xs ys : List Seen)
        → (trace_of o (xs ++ ys)).history ≡ (trace_of o xs).history ++ (trace_of o ys).history }
{}

/// Visits of other keys leave the steps of a key as they are.
pub fn other_keys_stand_apart()
    ensures same { (k l : Key) → (same_key k l ≡ true) ↔ (k ≡ l) }
    ensures other { (k l : Key) → (k ≡ l → ⊥) → same_key k l ≡ false }
    ensures apart { (k : Key) (vs past : List Visit) → Everywhere (λ v. same_key k v.key ≡ false) vs
        → steps k (onto vs past) ≡ steps k past }
{}

/// The pieces of a transcript cover just the addresses of its executed instructions.
#[tactic(auto, using(crate::proofs::Rows::rows_law))]
pub fn pieces_cover_what_was_executed()
    ensures { (o : Facts) (ss : List Seen) (pc : ℕ) → pc % 4 ≡ 0 → RunsOn o ss
        → Somewhere (Covers pc) (pieces o ss) ↔ Somewhere (λ s. s.pc ≡ pc) ss }
{}

/// The closed pieces of a run go from an address to the first control transfer from there on, and
/// the piece that it leaves open holds none.
pub fn pieces_are_pieces_of_the_text()
    ensures closed { (o : Facts) (ss : List Seen) → RunsOn o ss → Everywhere (IsPieceOf o) (closed o ss) }
    ensures left { (o : Facts) (ss : List Seen) (p : Piece) → RunsOn o ss → left_open o None ss ≡ Some p → IsOpenIn o p }
    ensures one_last { (o : Facts) (p q : Piece) → IsPieceOf o p → IsPieceOf o q → p.start ≡ q.start → p.last ≡ q.last }
{}

/// The blocks of a trace are the closed pieces of the run, each once, and their starts rise. Each has
/// a flag just where it ends in a conditional branch.
pub fn blocks_are_the_set_of_closed_pieces()
    ensures pieces { (o : Facts) (ss : List Seen) → map piece_of (trace_of o ss).blocks ≡ set_of (closed o ss) }
    ensures text { (o : Facts) (ss : List Seen) → RunsOn o ss → Everywhere (IsPieceOf o) (set_of (closed o ss)) }
    ensures order { (o : Facts) (ss : List Seen) → RunsOn o ss → StartsRise (set_of (closed o ss)) }
    ensures flags { (o : Facts) (ss : List Seen) → HasEdges o ss
        → Everywhere (λ b. (b.taken || b.not_taken) ≡ o.branches b.last) (trace_of o ss).blocks }
{}

/// The set of pieces is the one rising list that has just these members.
pub fn one_rising_list_has_these_members()
    ensures rises { (ps : List Piece) → Rise (set_of ps) }
    ensures members { (ps : List Piece) (p : Piece) → Somewhere (λ q. q ≡ p) (set_of ps) ↔ Somewhere (λ q. q ≡ p) ps }
    ensures one { (ps qs : List Piece) → Rise ps
        → ((x : Piece) → Somewhere (λ p. p ≡ x) ps ↔ Somewhere (λ q. q ≡ x) qs) → ps ≡ set_of qs }
    ensures by_starts { (ps : List Piece) → StartsRise ps → Rise ps }
{}

/// The flags of a run's blocks show just the evaluations of tree decisions that were completed.
pub fn the_flags_tell_of_tree_decisions()
    ensures { (o : Facts) (ss : List Seen) (d : DecId) (i : InstId) (vector : Vector) → AreFair o → IsDisciplined o ss → o.tree d ≡ true
        → IsFlagged o (trace_of o ss) d i vector ↔ IsCompletedFrom o [] (visits o ss) d i vector }
{}

/// The history of a run holds the visits of decisions whose graph is no tree, tells the same of them
/// as the transcript, and is disciplined where that is.
pub fn the_history_tells_of_decisions_that_are_no_trees()
    ensures flat { (o : Facts) (ss : List Seen) → Everywhere (IsOfNoTree o) (trace_of o ss).history }
    ensures visits { (o : Facts) (ss : List Seen) → visits_in o (trace_of o ss).history ≡ without_trees o (visits o ss) }
    ensures completed { (o : Facts) (ss : List Seen) (d : DecId) (i : InstId) (vector : Vector) → o.tree d ≡ false
        → IsCompletedFrom o [] (visits_in o (trace_of o ss).history) d i vector ↔ IsCompletedFrom o [] (visits o ss) d i vector }
    ensures disciplined { (o : Facts) (ss : List Seen) → IsDisciplined o ss → AllFollow o [] (visits_in o (trace_of o ss).history) }
{}

/// A replay of visits that all follow gives their events; else it breaks at the first that does not.
pub fn a_replay_gives_the_events_or_breaks()
    ensures events { (o : Facts) (vs : List Visit) → AllFollow o [] vs
        → replay o vs ≡ record { events = done_of o [] vs; broken = None } }
    ensures told { (o : Facts) (vs : List Visit) (d : DecId) (i : InstId) (vector : Vector) → AreFair o
        → IsCompletedFrom o [] vs d i vector ↔ Somewhere (λ e. e ≡ Done d i vector) (done_of o [] vs) }
    ensures whole { (o : Facts) (vs : List Visit) → ((replay o vs).broken ≡ None) ↔ AllFollow o [] vs }
    ensures broken { (o : Facts) (vs : List Visit) (place : ℕ) → ((replay o vs).broken ≡ Some place) ↔ BreaksAt o vs place }
{}

/// What is kept of each key is enough for the next visit: whether it follows, which vector it
/// completes, and what is kept after it.
pub fn what_is_kept_is_enough()
    ensures none { (o : Facts) → Keeps o nothing_kept [] }
    ensures follows { (o : Facts) (vs : List Visit) (kept : Key → Option Half) (v : Visit) → AllFollow o [] vs → Keeps o kept (onto vs [])
        → Follows o (onto vs []) v ↔ ((vector : Vector) × (begun (kept v.key) v.step.at_node ≡ Some vector)) }
    ensures completes { (o : Facts) (vs : List Visit) (kept : Key → Option Half) (v : Visit) (vector : Vector) → AllFollow o [] vs → Keeps o kept (onto vs [])
        → begun (kept v.key) v.step.at_node ≡ Some vector
        → over_by (next_in (o.graph v.key.decision) v.step.at_node v.step.value) (with_step vector v.step) ≡ completed o (onto vs []) v }
    ensures keeps { (o : Facts) (vs : List Visit) (kept : Key → Option Half) (v : Visit) (vector : Vector) → AllFollow o [] vs → Keeps o kept (onto vs [])
        → begun (kept v.key) v.step.at_node ≡ Some vector
        → Keeps o (put_half kept v.key (half_by (next_in (o.graph v.key.decision) v.step.at_node v.step.value) (with_step vector v.step))) (onto (vs ++ v ∷ []) []) }
{}
