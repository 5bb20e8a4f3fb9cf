// Single tests.
ghost use Rattle.std.specs.Prelude.{◌≡◌};
ghost use Rattle.life_types.specs.Types.{Types};
ghost use Rattle.life_core.specs.Function.{Function};
ghost use Rattle.life_core.specs.Operands.{location_of};
ghost use Rattle.life_core.specs.Step.{asked_of, NonZero, NotNull};
ghost use Rattle.life_store.specs.Content.{Content};
ghost use Rattle.life_pointers.specs.Pointers.{pointer_seen};
ghost use Rattle.life_cells.specs.Asked.{IsTestable};
ghost use Rattle.life_cells.specs.Cells.{state_in};
ghost use Rattle.life_cells.specs.Fits.{meant, IsFit};
ghost use Rattle.life_cells.specs.Scopes.{function_in, types_in};
ghost use Rattle.life_interp.specs.Accessed.{is_leading, HasTested};
ghost use Rattle.life_interp.specs.Walking.{Asks};

use life_cells::{Cell, Scope, number_at, tested};
use life_core::{Location, Test};
use life_pointers::Pointer;
use life_store::Store;

/// Whether the test holds, if there is what it asks.
#[inline(always)]
pub(crate) fn ask<S: Store>(
    scope: &Scope<'_>,
    store: &S,
    cells: &[Cell],
    test: &Test,
) -> Option<bool>
    requires fits { IsFit (types_in scope.now) (S.content store.now) (S.rows store.now) cells.now }
    requires tested { HasTested (types_in scope.now) (function_in scope.now) (state_in (meant (types_in scope.now) (S.content store.now) (S.rows store.now)) cells.now) (asked_of test.now) }
    ensures { Asks (types_in scope.now) (function_in scope.now) (asked_of test.now) (meant (types_in scope.now) (S.content store.now) (S.rows store.now)) cells.now result }
{
    match test {
        Test::NonZero(register) => ask_register(cells, *register),
        Test::NotNull(location) => ask_pointer(scope, store, cells, location),
    }
}

/// Whether a register isn't 0.
#[inline(always)]
pub(crate) fn ask_register(cells: &[Cell], register: u32) -> Option<bool>
    ensures { (types : Types) (f : Function) (c : Content) → Asks types f (NonZero register) c cells.now result }
{
    match number_at(cells, register) {
        None => None,
        Some(value) => Some(value != 0),
    }
}

// Whether a pointer or a `std::unique_ptr` isn't null.
fn ask_pointer<S: Store>(
    scope: &Scope<'_>,
    store: &S,
    cells: &[Cell],
    location: &Location,
) -> Option<bool>
    requires fits { IsFit (types_in scope.now) (S.content store.now) (S.rows store.now) cells.now }
    requires testable { IsTestable (types_in scope.now) (function_in scope.now) (location_of location.now) (state_in (meant (types_in scope.now) (S.content store.now) (S.rows store.now)) cells.now) }
    ensures { Asks (types_in scope.now) (function_in scope.now) (NotNull (location_of location.now)) (meant (types_in scope.now) (S.content store.now) (S.rows store.now)) cells.now result }
{
    match tested(scope, store, cells, location) {
        None => None,
        Some(pointer) => Some(is_leading(pointer)),
    }
}

// Whether it isn't null.
fn is_leading(pointer: Pointer) -> bool
    ensures { result ≡ is_leading (pointer_seen pointer) }
{
    match pointer {
        Pointer::Null => false,
        Pointer::Wild => true,
        Pointer::To { .. } => true,
        Pointer::Static(_) => true,
    }
}
