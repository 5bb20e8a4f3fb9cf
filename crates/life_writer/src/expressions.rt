// Expressions by their uses: as values, places, pointers, conditions and alone
// (ISO/IEC 14882:2017 [intro.execution], [expr]).
ghost use Rattle.std.specs.Prelude.{◌≡◌, OnOk};
ghost use Rattle.life_core.specs.Operands.{location_of, operand_of};
ghost use Rattle.life_core.specs.Tree.{condition_tree};
ghost use Rattle.life_writer.specs.Answers.{Answers};
ghost use Rattle.life_writer.specs.PartUses.{expression_uses};
ghost use Rattle.life_writer.specs.Using as spec;
ghost use Rattle.life_writer.specs.Characters as characters;
ghost use Rattle.life_writer.specs.Views.{around_of, destination_of, pointing_of, seen_of, state_of};

use crate::around::Around;
use crate::behind::Behind;
use crate::building::Destination;
use crate::characters::SeenCharacters;
use crate::parts::Part;
use crate::pointers::Pointing;
use crate::writer::Writer;
use life_core::{Condition, Location, Operand};
use life_typed::TypedExpr;
use life_types::{NoMemory, Place, Ty};

impl Writer {
    /// The value of an expression as one of a type, in the register that is wanted or one of its own,
    /// with the token behind it.
    pub fn value(
        &mut self,
        a: &Around,
        expression: &TypedExpr,
        behind: Place,
        to: Ty,
        into: Option<u32>,
    ) -> Result<u32, NoMemory>
        ensures { Answers (λ x. x) result (spec.value (expression_uses (around_of a.now) expression.now) behind to into (state_of self.old)) (state_of self.new) }
    {
        self.part_value(a, Some(Part::of(expression)), behind, to, into)
    }

    /// The place that an expression is ([basic.lval]).
    pub fn operand(&mut self, a: &Around, expression: &TypedExpr) -> Result<Operand, NoMemory>
        ensures { Answers operand_of result (spec.operand (expression_uses (around_of a.now) expression.now) (state_of self.old)) (state_of self.new) }
    {
        self.part_operand(a, Some(Part::of(expression)))
    }

    /// What an expression gives a pointer.
    pub fn pointing(&mut self, a: &Around, expression: &TypedExpr) -> Result<Pointing, NoMemory>
        ensures { Answers pointing_of result (spec.pointing (expression_uses (around_of a.now) expression.now) (state_of self.old)) (state_of self.new) }
    {
        self.part_pointing(a, Some(Part::of(expression)))
    }

    /// The location of the pointer that an expression is, or that sees it where a pointer of this type
    /// is wanted.
    pub fn pointer(
        &mut self,
        a: &Around,
        expression: &TypedExpr,
        wanted: Ty,
    ) -> Result<Location, NoMemory>
        ensures { Answers location_of result (spec.pointer (expression_uses (around_of a.now) expression.now) wanted (state_of self.old)) (state_of self.new) }
    {
        self.part_pointer(a, Some(Part::of(expression)), wanted)
    }

    /// An expression as a condition ([stmt.select], [conv.bool]).
    pub fn condition(
        &mut self,
        a: &Around,
        expression: &TypedExpr,
        behind: Behind,
    ) -> Result<Condition, NoMemory>
        ensures { Answers condition_tree result (spec.condition (expression_uses (around_of a.now) expression.now) behind (state_of self.old)) (state_of self.new) }
    {
        self.part_condition(a, Some(Part::of(expression)), behind)
    }

    /// What is done by an expression that has no result ([stmt.expr]).
    pub fn alone(&mut self, a: &Around, expression: &TypedExpr) -> Result<(), NoMemory>
        ensures { OnOk result (state_of self.new ≡ (expression_uses (around_of a.now) expression.now).alone (state_of self.old)) }
    {
        self.part_alone(a, Some(Part::of(expression)))
    }

    /// Where an expression's characters are found.
    pub fn characters_of(
        &mut self,
        a: &Around,
        expression: &TypedExpr,
    ) -> Result<SeenCharacters, NoMemory>
        ensures { Answers seen_of result (characters.seen (expression_uses (around_of a.now) expression.now) (state_of self.old)) (state_of self.new) }
    {
        self.seen(a, Some(Part::of(expression)))
    }

    /// An owner or a struct that is a value is built where it goes.
    pub fn built_by(
        &mut self,
        a: &Around,
        expression: &TypedExpr,
        destination: Destination,
    ) -> Result<u32, NoMemory>
        ensures { Answers (λ x. x) result (spec.object_in (expression_uses (around_of a.now) expression.now) (destination_of destination) (state_of self.old)) (state_of self.new) }
    {
        self.part_object(a, Some(Part::of(expression)), destination)
    }
}
