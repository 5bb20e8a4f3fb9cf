// Why steps stop.
ghost use Rattle.std.specs.Prelude.{◌≡◌, IfOk};
ghost use Rattle.life_store.specs.Content.{Content};
ghost use Rattle.life_store.specs.Effects.{on_got, Effect, Strays};
ghost use Rattle.life_store.specs.References.{Rows};
ghost use Rattle.life_store.specs.State as state;
ghost use Rattle.life_pointers.specs.Attempts.{tried};
ghost use Rattle.life_pointers.specs.Pointers.{pointer_seen, PointerFits};

use life_pointers::{Pointer, Stop};

/// What no proper program does, unless what comes before it stops the step.
pub(crate) fn lost_behind(before: Result<Pointer, Stop>) -> Result<Pointer, Stop>
    ensures is { (go : state.Pointer → Effect) → on_got (tried pointer_seen before) (λ _. Strays) ≡ on_got (tried pointer_seen result) go }
    ensures fits { (c : Content) (rows : Rows) → IfOk result (PointerFits c rows) }
{
    match before {
        Ok(_) => Err(Stop::Lost),
        Err(stop) => Err(stop),
    }
}
