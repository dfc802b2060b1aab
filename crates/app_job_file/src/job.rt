//! What a job's file asks for.
ghost use Rattle.std.specs.Prelude.{◌≡◌, [], ◌++◌, ◌∷◌, OnOk, map};
ghost use Rattle.std.specs.String.{string_bytes};

use sql_ast::{Name, RefreshKind};
use std::alloc::{AllocError, Global};
use store_gateway::SenderId;

/// A refresh that a line or a statement names.
#[derive(Clone, Copy, Debug, PartialEq, Eq)]
pub struct Mention {
    /// What it does.
    pub change: RefreshKind,
    /// The number of its set.
    pub set: u32,
}

/// A kept view that a line names.
#[derive(Drop)]
pub struct Keep {
    /// The view's name.
    pub name: Name,
    /// The name of the script that has its query.
    pub file: String,
    /// The line, counted from 1.
    pub line: usize,
}

/// What a job's file asks for.
#[derive(Drop)]
pub struct Job {
    /// Its kept views, in the order of its lines.
    pub keeps: Vec<Keep>,
    /// The names of the scripts of its sessions, in order.
    pub scripts: Vec<String>,
    /// Its refreshes, in the order of its lines.
    pub refreshes: Vec<Mention>,
    /// How many of them are tried before the sessions.
    pub before: usize,
    /// Who sends each of the others, where two senders send them beside the sessions. Else nobody
    /// does, and they are tried in their order.
    pub senders: Vec<SenderId>,
    /// The name of the file that keeps its accepted refreshes, if it asks for one.
    pub journal: Option<String>,
}

impl Job {
    ghost use Rattle.app_job_file.specs.Files.{no_parts, parts_of};

    /// A job that asks for nothing.
    pub(crate) fn new(alloc: Global) -> Job
        ensures { parts_of result ≡ no_parts }
    {
        Job {
            keeps: Vec::new(alloc),
            scripts: Vec::new(alloc),
            refreshes: Vec::new(alloc),
            before: 0,
            senders: Vec::new(alloc),
            journal: None,
        }
    }
}
