// Objects without names, by what becomes of them (ISO/IEC 14882:2017 [class.temporary]).
ghost use Rattle.std.specs.Prelude.{◌≡◌, OnOk};
ghost use Rattle.life_core.specs.declared.program.LocalKind.TheVariants.{Object};
ghost use Rattle.life_writer.specs.Answers.{Answers};
ghost use Rattle.life_writer.specs.Temporaries as spec;
ghost use Rattle.life_writer.specs.Views.{state_of};

use crate::registers::nameless;
use crate::writer::Writer;
use life_core::{Local, LocalKind};
use life_types::{NoMemory, Place, Ty, TyId};

/// A local of a kind without a name.
pub fn nameless_of(kind: LocalKind, place: Place, ty: TyId) -> Local
    ensures { result ≡ spec.nameless_of kind place ty }
{
    Local {
        kind,
        ..nameless(place, ty)
    }
}

impl Writer {
    /// A new local of a kind without a name, which stands where it comes to life or is written first.
    pub(crate) fn new_nameless(
        &mut self,
        kind: LocalKind,
        place: Place,
        ty: Ty,
    ) -> Result<u32, NoMemory>
        ensures { Answers (λ x. x) result (spec.new_nameless kind place ty (state_of self.old)) (state_of self.new) }
    {
        let ty = self.type_number(ty)?;
        self.add_local(nameless_of(kind, place, ty))
    }

    // It ends with the full expression.
    #[tactic(auto, unfolding(crate::specs::Views::state_of))]
    fn add_pending(&mut self, local: u32) -> Result<(), NoMemory>
        ensures { OnOk result (state_of self.new ≡ spec.with_pending local (state_of self.old)) }
    {
        self.pending.push(local)?;
        Ok(())
    }

    // It ends with the scope of what is declared right behind it.
    #[tactic(auto, unfolding(crate::specs::Views::state_of))]
    fn add_scoped(&mut self, local: u32) -> Result<(), NoMemory>
        ensures { OnOk result (state_of self.new ≡ spec.with_scope local (state_of self.old)) }
    {
        self.living.push(local)?;
        Ok(())
    }

    /// A temporary that ends with the full expression.
    pub(crate) fn new_temporary(&mut self, place: Place, ty: Ty) -> Result<u32, NoMemory>
        ensures { Answers (λ x. x) result (spec.pending_local (spec.new_nameless Object place ty (state_of self.old))) (state_of self.new) }
    {
        let local = self.new_nameless(LocalKind::Object, place, ty)?;
        self.add_pending(local)?;
        Ok(local)
    }

    /// .. or with the scope of what is declared right behind it.
    pub(crate) fn new_scoped(&mut self, place: Place, ty: Ty) -> Result<u32, NoMemory>
        ensures { Answers (λ x. x) result (spec.scoped_local (spec.new_nameless Object place ty (state_of self.old))) (state_of self.new) }
    {
        let local = self.new_nameless(LocalKind::Object, place, ty)?;
        self.add_scoped(local)?;
        Ok(local)
    }
}
