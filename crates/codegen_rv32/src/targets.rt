//! Where code leads that does not go on to the next line.

/// Where exceptions lead, where a loop is left for, and where a body returns.
#[derive(Clone, Copy)]
pub(crate) struct Targets {
    pub(crate) raise_to: u32,
    pub(crate) exit_to: u32,
    pub(crate) return_to: u32,
}

/// What the nodes of a decision have in common: its number, the instance, and where its outcomes lead.
#[derive(Clone, Copy)]
pub(crate) struct Evaluation {
    pub(crate) decision: cov_base::DecId,
    pub(crate) instance: cov_base::InstId,
    pub(crate) true_at: u32,
    pub(crate) false_at: u32,
}
