// What holds of the diagnostics of all programs, and of calls that hand over values alone.
ghost use Rattle.std.specs.Prelude.{◌≡◌, ◌&&◌, ℕ, Bool, List, [], ◌∷◌, ◌++◌, Option, cond, map, not, slice_get, false, true};
ghost use Rattle.life_types.specs.Types.{Types};
ghost use Rattle.life_types.specs.declared.place.Place.{Place};
ghost use Rattle.life_core.specs.Function.{Function, Program};
ghost use Rattle.life_core.specs.Operands.{Argument, Location};
ghost use Rattle.life_core.specs.Step.{Call};
ghost use Rattle.life_core.specs.Tree.{Spot};
ghost use Rattle.life_core.specs.declared.program.FnId.{FnId};
ghost use Rattle.life_pset.specs.declared.element.AbsPlace.{AbsPlace};
ghost use Rattle.life_pset.specs.declared.element.Element.{Element};
ghost use Rattle.life_pset.specs.declared.element.Fact.{Fact};
ghost use Rattle.life_contract.specs.Signatures.{Signature};
ghost use Rattle.life_contract.specs.ValueSignatures.{AreValueSignatures, is_value_signature};
ghost use Rattle.life_rules.specs.Arguing.{argument_diags, argument_diags_of_two};
ghost use Rattle.life_rules.specs.Calling.{called_none, called_one, called_two};
ghost use Rattle.life_rules.specs.Carrying.{one_at, two_at};
ghost use Rattle.life_rules.specs.Diagnosing.{diags_at, diags_of_two};
ghost use Rattle.life_rules.specs.Keeping.{keeping_diags};
ghost use Rattle.life_rules.specs.Listing.{AreDiagnostics, AreProgramDiagnostics};
ghost use Rattle.life_rules.specs.Matching.{fact_at, facts_if};
ghost use Rattle.life_rules.specs.Returning.{widened_result};
ghost use Rattle.life_rules.specs.Staying.{made_at, mark, marks, spot_reads, spot_targets, spot_writes, staying};
ghost use Rattle.life_rules.specs.Texts.{naming_in};
ghost use Rattle.life_rules.specs.ToldAt.{spot_tells};
ghost use Rattle.life_rules.specs.declared.diag.Diag.{Diag};

/// The diagnostics of a program that has one function are those of the function.
pub fn one_function_is_the_program()
    ensures { (p : Program) (f : Function) (ds : List Diag) → p.functions ≡ f ∷ []
        → AreDiagnostics (naming_in p) p.types 0 f ds → AreProgramDiagnostics p ds }
{}

/// Where functions take and give values alone, nothing comes of their calls.
pub fn value_calls_make_nothing()
    ensures none { (types : Types) (sigs : List Signature) → AreValueSignatures types sigs → (target : Option Location) (g : FnId)
        → called_none types (slice_get sigs g.0) target ≡ [] }
    ensures one { (types : Types) (sigs : List Signature) → AreValueSignatures types sigs → (target : Option Location) (g : FnId) (xs : List Argument) (fact : Fact)
        → called_one types (slice_get sigs g.0) xs target fact ≡ [] }
    ensures two { (types : Types) (sigs : List Signature) → AreValueSignatures types sigs
        → (place : Place) (target : Option Location) (g : FnId) (xs : List Argument) (a b : Fact)
        → called_two types place g.0 (slice_get sigs g.0) xs target a b ≡ [] }
{}

/// .. and nothing is wrong with these calls, or wider in a result than is promised.
pub fn value_calls_are_right()
    ensures one { (types : Types) (sigs : List Signature) → AreValueSignatures types sigs
        → (function : ℕ) (place : Place) (target : Option Location) (g : FnId) (xs : List Argument) (fact : Fact)
        → argument_diags sigs types function place (Call target g xs) fact ≡ [] }
    ensures kept { (types : Types) (sigs : List Signature) → AreValueSignatures types sigs
        → (function : ℕ) (f : Function) (place : Place) (target : Option Location) (g : FnId) (xs : List Argument) (fact : Fact)
        → keeping_diags sigs types function f place (Call target g xs) fact ≡ [] }
    ensures two { (types : Types) (sigs : List Signature) → AreValueSignatures types sigs
        → (function : ℕ) (f : Function) (place : Place) (target : Option Location) (g : FnId) (xs : List Argument) (a b : Fact)
        → argument_diags_of_two sigs types function f place (Call target g xs) a b ≡ [] }
    ensures result { (types : Types) (sig : Signature) → is_value_signature types sig ≡ true
        → (function : ℕ) (place : Place) (l : AbsPlace) (e : Element) → widened_result types sig function place l e ≡ [] }
{}

/// What comes of a fact: where its location isn't written, what stays there of its element, and where
/// the location is read, what is made.
pub fn one_fact_stays_or_is_read()
    ensures { (sigs : List Signature) (types : Types) (f : Function) (branch : Option Bool) (spot : Option Spot) (x : Fact)
        → one_at sigs types f branch spot x
        ≡ cond (spot_writes spot x.location) [] (map (fact_at x.location) (staying types f spot x.element))
        ++ cond (spot_reads spot x.location) (made_at sigs types f branch spot x) [] }
{}

/// What comes of two facts: where the first is a target that marks the element of the other, and the
/// other's location isn't written, the mark there.
pub fn targets_mark_elements()
    ensures { (sigs : List Signature) (types : Types) (f : Function) (spot : Option Spot) (a b : Fact)
        → two_at sigs types f spot a b
        ≡ facts_if (spot_targets sigs types f spot a.location && (marks spot a.element b.element && not (spot_writes spot b.location))) b.location (mark spot) }
{}

/// Facts about a location that isn't told at a point make nothing wrong there, alone or beside others.
pub fn only_what_is_told_is_wrong()
    ensures one { (sigs : List Signature) (types : Types) (function : ℕ) (f : Function) (spot : Option Spot) (x : Fact)
        → spot_tells types f spot x.location ≡ false → diags_at sigs types function f spot x ≡ [] }
    ensures first { (sigs : List Signature) (types : Types) (function : ℕ) (f : Function) (spot : Option Spot) (a b : Fact)
        → spot_tells types f spot a.location ≡ false → diags_of_two sigs types function f spot a b ≡ [] }
    ensures second { (sigs : List Signature) (types : Types) (function : ℕ) (f : Function) (spot : Option Spot) (a b : Fact)
        → spot_tells types f spot b.location ≡ false → diags_of_two sigs types function f spot a b ≡ [] }
{}
