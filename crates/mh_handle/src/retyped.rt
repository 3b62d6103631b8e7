ghost use Rattle.std.specs.Prelude.{◌≡◌, ◌≤◌, ◌∷◌, [], IfOk, length};
ghost use Rattle.std.specs.Result.{result_map_both};
ghost use Rattle.mh_handle.specs.Errors.{of_intern};
ghost use Rattle.mh_handle.specs.Stands.{HasShape, handle_body};
ghost use Rattle.mh_handle.specs.Works.{HoldsTypes, IsReady, IsUnchanged, TradesTypes};

use crate::handle::Handle;
use crate::work::Work;
use mh_form::Bound;
use mh_intern::InternError;
use mh_values::MethodTy;
use std::sync::Wait;

impl<'t> Handle<'t> {
    /// A handle of another type and weight with the same form and fields, for a combinator that
    /// adds no key. The erased parameters of both types must be equal. If the type cannot be held,
    /// the handle is given back.
    pub fn retype<R: Wait>(
        self,
        w: &mut Work<'_, 't>,
        rt: &R,
        ty: MethodTy,
        weight: u32,
    ) -> Result<Handle<'t>, InternError>
        requires light { weight ≤ 256 }
        requires few { length self.held ≤ weight }
        requires shaped { HasShape (handle_body self) ty }
        requires ready { IsReady w.old 1 }
        requires held { HoldsTypes w.old self.held }
        ensures unchanged { IsUnchanged w.old w.new }
        ensures types { TradesTypes (ty ∷ []) self.entry.held w.old w.new
            (result_map_both (λ h. h) of_intern result) }
        ensures ty { IfOk result (λ h. h.ty ≡ ty) }
        ensures weight { IfOk result (λ h. h.weight ≡ weight) }
        ensures sides { IfOk result (λ h. h.sides ≡ self.entry.sides) }
        ensures form { IfOk result (λ h. h.form ≡ self.entry.form) }
        ensures fields { IfOk result (λ h. h.fields ≡ self.entry.fields) }
    {
        match w.hold(rt, ty) {
            Ok(new) => {
                let Handle {
                    own,
                    weight: _,
                    sides,
                    form,
                    bound,
                } = self;
                let Bound { body: _, fields } = bound;
                w.let_go(own);
                Ok(Handle::of(new, weight, sides, form, fields))
            }
            Err(error) => {
                self.give_back(w);
                Err(error)
            }
        }
    }
}
