//! The views of a session, from which its queries are planned.
ghost use Rattle.sql_binder.specs.Binding.{bound_view};
ghost use Rattle.plan_planner.specs.Made.{Makes, kept_view};

use sql_ast::{Block, Name};
use sql_binder::bind_view;
use sql_binder_steps::{BindFault, View, Views, copy_views};
use sqlite_items::Items;
use std::alloc::{AllocError, Global};
use std::marker::Model;

/// The views of a session in the order in which they were made. Each was bound over those that
/// stood then, so its query is well typed.
pub struct SessionViews {
    /// The views.
    pub(crate) views: Views,
}

impl Drop for SessionViews {
    #[inline]
    fn drop(self) {
        let SessionViews { views } = self;
        drop(views);
    }
}

impl Model for SessionViews {
    ghost use Rattle.std.specs.Prelude.{List};
    ghost use Rattle.sql_binder_steps.specs.declared.view.View.{View};
    ghost use Rattle.sql_binder_laws.specs.WellTyped.{ViewsAreTyped};
    ghost use Rattle.sql_bound_query.specs.contracts.query.BoundBlock as block;
    ghost use Rattle.std.specs.Coded.{codes};

    ghost Value = { List View };

    ghost coded = { Prim.hlevel (codes, block.the_row.coded) };

    ghost view = { λ v. v.views.all };

    ghost invariant = { λ v. ViewsAreTyped v.views.all };
}

impl SessionViews {
    ghost use Rattle.std.specs.Prelude.{◌≡◌, ◌<◌, [], length, remove, IfOk};

    /// No view.
    pub fn new(alloc: Global) -> SessionViews
        ensures { result ≡ [] }
    {
        let views = Views {
            all: Items::new(alloc),
        };
        SessionViews { views }
    }

    /// The views.
    pub fn as_slice(&self) -> &[View]
        ensures { result.now ≡ self.now }
    {
        self.views.all.as_slice()
    }

    /// Makes a view of a bound query.
    ///
    /// # Errors
    ///
    /// `Refused` exactly as `bind_view` is; `OutOfMemory`. The views then stay as they are.
    pub fn make(
        &mut self,
        alloc: Global,
        name: &Name,
        names: &[Name],
        query: &Block,
    ) -> Result<(), BindFault>
        ensures { Makes (bound_view name.now names.now query.now self.old) self.old self.new
            result }
    {
        let view = bind_view(alloc, name, names, query, &self.views)?;
        self.views.all.push(view)?;
        Ok(())
    }

    /// Makes a view of a bound query whose rows are kept under this number. It is bound over no
    /// other view.
    ///
    /// # Errors
    ///
    /// `Refused` exactly as `bind_view` is; `OutOfMemory`. The views then stay as they are.
    pub fn keep(
        &mut self,
        alloc: Global,
        number: u32,
        name: &Name,
        query: &Block,
    ) -> Result<(), BindFault>
        ensures { Makes (kept_view number name.now query.now) self.old self.new result }
    {
        let none = Views {
            all: Items::new(alloc),
        };
        let view = bind_view(alloc, name, &[], query, &none)?;
        let view = View {
            name: view.name,
            columns: view.columns,
            block: view.block,
            items: view.items,
            kept: Some(number),
        };
        self.views.all.push(view)?;
        Ok(())
    }

    /// The same views once more.
    pub fn copy(&self, alloc: Global) -> Result<SessionViews, AllocError>
        ensures { IfOk result (λ views. views ≡ self.now) }
    {
        let all = copy_views(alloc, self.views.all.as_slice())?;
        let views = Views { all };
        Ok(SessionViews { views })
    }

    /// Drops the view at a place.
    pub fn remove(&mut self, place: usize)
        requires { place < length self.old }
        ensures { self.new ≡ remove self.old place }
    {
        self.views.all.remove(place);
    }
}
