ghost use Rattle.std.specs.Prelude.{◌≡◌, [], Err};
ghost use Rattle.mh_intern.specs.Exchanges.{Exchanges};
ghost use Rattle.mh_handle.specs.Errors.{of_check};
ghost use Rattle.mh_handle.specs.Works.{HoldsTypes, IsUnchanged};

use crate::error::HandleError;
use crate::handle::Handle;
use crate::work::Work;
use mh_tree::CheckError;

impl<'t> Handle<'t> {
    /// Gives back the handle that a combinator refuses, and answers the refusal. It takes no
    /// memory.
    pub fn refuse(self, w: &mut Work<'_, 't>, error: CheckError) -> Result<Handle<'t>, HandleError>
        requires of_types { w.old.seat.now.table ≡ w.old.types.now }
        requires held { HoldsTypes w.old self.held }
        ensures unchanged { IsUnchanged w.old w.new }
        ensures error { result ≡ Err (of_check error) }
        ensures types { Exchanges [] self.entry.held [] w.old.seat.now w.new.seat.now }
    {
        self.give_back(w);
        Err(HandleError::from(error))
    }
}
