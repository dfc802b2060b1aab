//! What a job works on.
use app_sessions::Session;
use plan_algebra::KeptPlan;
use plan_planner::SessionViews;
use std::sync::Arc;
use store_gateway::SenderId;
use store_state::{Refresh, State};

/// The kept views of a job, and the plans of their queries.
#[derive(Drop)]
pub struct JobKeeps {
    /// The views under their numbers, with which each session begins.
    pub views: SessionViews,
    /// The plan of each. A version's rows are kept by it.
    pub plans: Vec<Arc<KeptPlan>>,
}

/// What a job works on.
#[derive(Drop)]
pub struct JobSources {
    /// Its kept views.
    pub keeps: JobKeeps,
    /// Its sessions, at their beginning.
    pub sessions: Vec<Session>,
    /// The tables.
    pub base: State,
    /// Its refreshes, in the order of its lines.
    pub list: Vec<Refresh>,
    /// How many of them are tried before the sessions.
    pub before: usize,
    /// Who sends each of the others, or nobody where they are tried in their order.
    pub senders: Vec<SenderId>,
    /// The name of the file that keeps its accepted refreshes, if it asks for one.
    pub journal: Option<String>,
}
