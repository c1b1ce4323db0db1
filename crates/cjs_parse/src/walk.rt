//! The tables during the walk, what an event does to them, and what is left of them at the end.
ghost use Rattle.cjs_law.specs.Findings.{safe};
ghost use Rattle.cjs_parse.specs.State.{Sound, state};
ghost use Rattle.findings.specs.Tables.{Leaves};

use crate::bindings::Bindings;
use cjs_law::Event;
use findings::FindingsTables;
use table::{Binding, Full};
use text::Place;

/// The tables that the walk fills, and the text that their rows have their keys in.
// The text has a lifetime of its own: with that of the borrow of the tables, the check doesn't cover `walk`.
#[derive(Drop)]
pub(crate) struct Walk<'w, 't, 'a> {
    pub(crate) tables: &'w mut FindingsTables<'t>,
    pub(crate) text: &'a [u8],
    ghost sound: { Sound text.now tables.now },
}

// The methods that add an event differ in their table: they stand apart as in the ported source.
impl Walk<'_, '_, '_> {
    ghost use Rattle.std.specs.Prelude.{◌≡◌, [], ◌∷◌};
    ghost use Rattle.cjs_law.specs.declared.event.Event.TheVariants.{Bind, Export, Reexport, Replace, Unsafe};
    ghost use Rattle.cjs_law.specs.Events.{once};
    ghost use Rattle.cjs_parse.specs.Bound.{bound_in};
    ghost use Rattle.cjs_parse.specs.Moving.{MovesOn, bound_by};

    /// The bindings that it has made so far.
    pub(crate) fn bindings(&self) -> Bindings<'_>
        ensures { bound_in result ≡ bound_by self.now }
    {
        Bindings {
            rows: self.tables.bindings.held(),
            text: self.text,
        }
    }

    /// Exports a text, unless one of its reading is exported.
    #[tactic(auto, using(crate::proofs::Steps::exported, crate::proofs::Steps::no_room))]
    fn add_export(&mut self, export: Place) -> Result<(), Full>
        ensures { MovesOn self.old (Export export ∷ []) result self.new }
    {
        self.tables.exports.insert(self.text, export)?;
        Ok(())
    }

    /// Re-exports a specifier, unless one of its reading is re-exported.
    #[tactic(auto, using(crate::proofs::Steps::reexported, crate::proofs::Steps::no_room))]
    fn add_reexport(&mut self, reexport: Place) -> Result<(), Full>
        ensures { MovesOn self.old (Reexport reexport ∷ []) result self.new }
    {
        self.tables.reexports.insert(self.text, reexport)?;
        Ok(())
    }

    /// Re-exports a specifier in place of all the others.
    #[tactic(auto, using(crate::proofs::Steps::replaced))]
    fn set_reexport_assignment_value(&mut self, value: Place) -> Result<(), Full>
        ensures { MovesOn self.old (Replace value ∷ []) result self.new }
    {
        self.tables.reexports.clear();
        self.add_reexport(value)
    }

    /// Marks a text unsafe, unless one of its reading is marked.
    #[tactic(auto, using(crate::proofs::Steps::marked_unsafe, crate::proofs::Steps::no_room))]
    fn add_unsafe_getter(&mut self, name: Place) -> Result<(), Full>
        ensures { MovesOn self.old (Unsafe name ∷ []) result self.new }
    {
        self.tables.unsafes.insert(self.text, name)?;
        Ok(())
    }

    /// Binds a name to a specifier, in place of what it was bound to.
    #[tactic(auto, using(crate::proofs::Steps::bound, crate::proofs::Steps::no_room))]
    fn bind(&mut self, name: Place, value: Place) -> Result<(), Full>
        ensures { MovesOn self.old (Bind name value ∷ []) result self.new }
    {
        self.tables
            .bindings
            .put(self.text, Binding { name, value })?;
        Ok(())
    }

    /// Enters an event, if there is one, in the tables.
    #[tactic(auto, using(crate::proofs::Steps::moved_none))]
    pub(crate) fn perform(&mut self, event: Option<Event>) -> Result<(), Full>
        ensures { MovesOn self.old (once event) result self.new }
    {
        match event {
            Some(Event::Bind { name, value }) => self.bind(name, value),
            Some(Event::Export(place)) => self.add_export(place),
            Some(Event::Unsafe(place)) => self.add_unsafe_getter(place),
            Some(Event::Reexport(place)) => self.add_reexport(place),
            Some(Event::Replace(place)) => self.set_reexport_assignment_value(place),
            None => Ok(()),
        }
    }
}

/// Drops the unsafe texts from both lists.
// `Sound` is asked. A method of `Walk`, whose invariant it is, was tried: it proves, but where the walk ends by a call
// of it, what it leaves in the tables is lost.
pub(crate) fn take_result(tables: &mut FindingsTables, text: &[u8])
    requires { Sound text.now tables.old }
    ensures { Leaves tables.old (safe text.now (state tables.old)) tables.new }
{
    tables.exports.remove_all(text, &tables.unsafes);
    tables.reexports.remove_all(text, &tables.unsafes);
}
