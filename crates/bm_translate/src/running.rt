//! What is known between two events of a run.

use crate::watching::Secrets;
use bm_calculus::Config;
use spec_calculus::{BranchAuthorisation, InitAuthorisation};
use spec_data::Seq;

/// The configuration before an event, with its lists of authorisations, which it doesn't give out itself, and the secrets.
#[derive(Drop)]
pub struct Running {
    pub config: Config,
    /// The deposits that contracts may take.
    pub inits: Seq<InitAuthorisation>,
    /// The branches that are authorised.
    pub asked: Seq<BranchAuthorisation>,
    pub secrets: Secrets,
}
