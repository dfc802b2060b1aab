//! The views of a session.
ghost use Rattle.std.specs.Prelude.{◌≡◌, IfOk, IsTrue, OnOk};
ghost use Rattle.app_sessions.specs.Outcomes.{dropped, is_printable, made};
ghost use Rattle.app_sessions.specs.Views.{is_taken, is_view, made_view, place_of_view, with_made};
ghost use Rattle.app_sessions.specs.Views.{without_view};

use crate::outcome::Outcome;
use base_refusals::Refusal;
use base_schema::TableName;
use plan_planner::SessionViews;
use sql_ast::{Block, Name};
use sql_binder_steps::{BindFault, View};
use std::alloc::{AllocError, Global};

/// The place of the first view of that name.
fn place_of(views: &[View], name: &Name) -> Option<usize>
    ensures { result ≡ place_of_view name.now views.now }
{
    views
        .iter()
        .position(|view| view.name.bytes() == name.bytes())
}

/// Whether a table or a view has the name.
fn is_taken(views: &[View], name: &Name) -> bool
    ensures { result ≡ is_taken name.now views.now }
{
    TableName::from_name(name.bytes()).is_some() || place_of(views, name).is_some()
}

/// Makes a view, where its name is new and its query is bound.
pub fn make_view(
    alloc: Global,
    views: &mut SessionViews,
    name: &Name,
    names: &[Name],
    query: &Block,
) -> Result<Outcome, AllocError>
    ensures outcome { IfOk result (λ o. o
        ≡ made (made_view name.now names.now query.now views.old)) }
    ensures printable { IfOk result (λ o. IsTrue (is_printable o)) }
    ensures views { OnOk result (views.new
        ≡ with_made views.old (made_view name.now names.now query.now views.old)) }
{
    if is_taken(views.as_slice(), name) {
        return Ok(Outcome::Refused(Refusal::ViewExists));
    }
    match views.make(alloc, name, names, query) {
        Ok(()) => Ok(Outcome::Done),
        Err(BindFault::Refused(why)) => Ok(Outcome::Refused(Refusal::Bind(why))),
        Err(BindFault::OutOfMemory) => Err(AllocError),
    }
}

/// Drops the view of that name, where there is one.
pub fn drop_view(views: &mut SessionViews, name: &Name) -> Outcome
    ensures outcome { result ≡ dropped (is_view name.now views.old) }
    ensures printable { IsTrue (is_printable result) }
    ensures views { views.new ≡ without_view name.now views.old }
{
    match place_of(views.as_slice(), name) {
        Some(place) => {
            views.remove(place);
            Outcome::Done
        }
        None => Outcome::Refused(Refusal::UnknownView),
    }
}
