// Places and pointers (ISO/IEC 14882:2017 [basic.lval], [expr.unary.op], [dcl.ptr]).
ghost use Rattle.life_core.specs.Operands.{Whole, operand_of};
ghost use Rattle.life_writer.specs.Answers.{Answers};
ghost use Rattle.life_writer.specs.ExpressionForms.{member_at, target_at};
ghost use Rattle.life_writer.specs.PartUses.{node_uses, part_uses};
ghost use Rattle.life_writer.specs.Pointers.{aimed};
ghost use Rattle.life_writer.specs.Using as spec;
ghost use Rattle.life_writer.specs.Uses.{own};
ghost use Rattle.life_writer.specs.Views.{around_of, pointing_of, state_of};
ghost use Rattle.life_writer.specs.Writing.{mapped};

use crate::acts::location_in;
use crate::around::{Around, own_type};
use crate::bases::reference_to;
use crate::building::{Destination, Last};
use crate::parts::{Node, Part, Shape};
use crate::placed::with_member;
use crate::pointers::Pointing;
use crate::rows::row_between;
use crate::writer::Writer;
use life_core::{Location, Operand, Source, Which};
use life_typed::Category;
use life_types::{NoMemory, Ty};
use std::vec::Vec;

impl Writer {
    /// A part where a place is wanted.
    #[cycle(uses)]
    pub(crate) fn part_operand(
        &mut self,
        a: &Around,
        part: Option<Part<'_>>,
    ) -> Result<Operand, NoMemory>
        ensures { Answers operand_of result (spec.operand (part_uses (around_of a.now) part.entry) (state_of self.old)) (state_of self.new) }
    {
        let Some(found) = part else {
            return Err(NoMemory);
        };
        match found.category {
            Category::Value => self.node_operand(a, &found.opened()),
            Category::Place { .. } => self.part_at(a, part),
        }
    }

    // .. once it is opened.
    #[cycle(uses)]
    fn node_operand(&mut self, a: &Around, node: &Node<'_>) -> Result<Operand, NoMemory>
        ensures { Answers operand_of result (spec.operand (node_uses (around_of a.now) node.now) (state_of self.old)) (state_of self.new) }
    {
        match node.category {
            Category::Value => {
                let goal = Destination::Temporary(node.place, own_type(node.ty));
                let local = self.object(a, node, goal)?;
                Ok(Operand::name(self.alloc, local))
            }
            Category::Place { .. } => self.at(a, node),
        }
    }

    /// The place that an opened part is.
    #[cycle(uses)]
    pub(crate) fn at(&mut self, a: &Around, node: &Node<'_>) -> Result<Operand, NoMemory>
        ensures { Answers operand_of result ((node_uses (around_of a.now) node.now).at (state_of self.old)) (state_of self.new) }
    {
        match node.shape {
            Shape::Local(number) => Ok(self.variable_place(number)),
            Shape::Paren { inner, .. } => self.part_at(a, inner),
            Shape::Dereference(operand) => self.target_of(a, node, operand),
            Shape::Index {
                base,
                index,
                closing,
            } => self.indexed(a, node, base, index, closing),
            Shape::Method {
                base,
                method,
                arguments,
                delimiters,
            } => self.method_at(a, node, method, base, arguments, delimiters),
            Shape::Call {
                function,
                arguments,
                delimiters,
            } => {
                let arguments = self.arguments(a, arguments, delimiters, a.parameters(function))?;
                let last = Last::Call(node.place, function, arguments);
                let ty = reference_to(node.category);
                let register = self.built(last, Destination::Register(node.place, None, ty))?;
                Ok(Operand::through(self.alloc, register))
            }
            Shape::Member { base, member } => self.member_at(a, base, member),
            _ => Err(NoMemory),
        }
    }

    // What a pointer points to.
    #[cycle(uses)]
    fn target_of(
        &mut self,
        a: &Around,
        node: &Node<'_>,
        pointer: Option<Part<'_>>,
    ) -> Result<Operand, NoMemory>
        ensures { Answers operand_of result (target_at (own (part_uses (around_of a.now) pointer.entry)) (part_uses (around_of a.now) pointer.entry) node.now.place node.now.category (state_of self.old)) (state_of self.new) }
    {
        let Some(part) = pointer else {
            return Err(NoMemory);
        };
        let own = own_type(part.ty);
        match own {
            Ty::Unique(_) => {
                let base = self.part_base(a, pointer)?;
                self.element(node, base, Which::Target)
            }
            _ => {
                let pointer = self.part_pointer(a, pointer, own)?;
                Ok(Operand::Through {
                    pointer,
                    members: Vec::new(self.alloc),
                })
            }
        }
    }

    // A member of a place.
    #[cycle(uses)]
    fn member_at(
        &mut self,
        a: &Around,
        base: Option<Part<'_>>,
        member: u32,
    ) -> Result<Operand, NoMemory>
        ensures { Answers operand_of result (member_at (part_uses (around_of a.now) base.entry) member (state_of self.old)) (state_of self.new) }
    {
        let place = self.part_operand(a, base)?;
        let reached = with_member(place, member)?;
        Ok(reached)
    }

    /// What a part gives a pointer.
    #[cycle(uses)]
    pub(crate) fn part_pointing(
        &mut self,
        a: &Around,
        part: Option<Part<'_>>,
    ) -> Result<Pointing, NoMemory>
        ensures { Answers pointing_of result (spec.pointing (part_uses (around_of a.now) part.entry) (state_of self.old)) (state_of self.new) }
    {
        match part {
            Some(part) => self.node_pointing(a, &part.opened()),
            None => Err(NoMemory),
        }
    }

    /// .. once it is opened.
    #[cycle(uses)]
    pub(crate) fn node_pointing(
        &mut self,
        a: &Around,
        node: &Node<'_>,
    ) -> Result<Pointing, NoMemory>
        ensures { Answers pointing_of result (spec.pointing (node_uses (around_of a.now) node.now) (state_of self.old)) (state_of self.new) }
    {
        match own_type(node.ty) {
            Ty::Text => self.whole(a, node),
            Ty::Vector(_) => self.whole(a, node),
            Ty::Unique(_) => self.owned_by(a, node),
            _ => self.points_to(a, node),
        }
    }

    // A unique_ptr that is a place is tested where it lies, and what a value owns is seen through its
    // temporary.
    #[cycle(uses)]
    fn owned_by(&mut self, a: &Around, node: &Node<'_>) -> Result<Pointing, NoMemory>
        ensures { Answers pointing_of result (spec.owned (node_uses (around_of a.now) node.now) (state_of self.old)) (state_of self.new) }
    {
        match node.category {
            Category::Value => {
                let goal = Destination::Temporary(node.place, own_type(node.ty));
                let local = self.object(a, node, goal)?;
                let owner = Location::whole(self.alloc, local);
                Ok(Pointing::At(Source::Get(owner)))
            }
            Category::Place { .. } => {
                let place = self.at(a, node)?;
                Ok(Pointing::As(location_in(place)))
            }
        }
    }

    // A string is seen by a view of the whole of it, and a vector by a span.
    #[cycle(uses)]
    fn whole(&mut self, a: &Around, node: &Node<'_>) -> Result<Pointing, NoMemory>
        ensures { Answers pointing_of result (mapped (λ o. aimed (Whole o)) (spec.operand (node_uses (around_of a.now) node.now) (state_of self.old))) (state_of self.new) }
    {
        let place = self.node_operand(a, node)?;
        Ok(Pointing::At(Source::Whole(place)))
    }

    // What a pointer points to.
    #[cycle(uses)]
    fn points_to(&mut self, a: &Around, node: &Node<'_>) -> Result<Pointing, NoMemory>
        ensures { Answers pointing_of result ((node_uses (around_of a.now) node.now).pointing (state_of self.old)) (state_of self.new) }
    {
        match node.shape {
            Shape::Null => Ok(Pointing::At(Source::Null)),
            Shape::Text(text) => Ok(Pointing::At(Source::Text(a.text_of(text)?))),
            Shape::Local(number) => {
                let local = self.variable(number);
                Ok(Pointing::As(Location::whole(self.alloc, local)))
            }
            Shape::Paren { inner, .. } => self.part_points_to(a, inner),
            Shape::AddressOf(operand) => {
                let place = self.part_operand(a, operand)?;
                Ok(Pointing::At(Source::Place(place)))
            }
            Shape::Method {
                base,
                method,
                arguments,
                delimiters,
            } => self.method_pointing(a, node, method, base, arguments, delimiters),
            Shape::Call {
                function,
                arguments,
                delimiters,
            } => {
                let arguments = self.arguments(a, arguments, delimiters, a.parameters(function))?;
                Ok(Pointing::Call(function, arguments))
            }
            Shape::Member { base, member } => {
                let place = self.member_at(a, base, member)?;
                Ok(Pointing::As(location_in(place)))
            }
            Shape::Binary {
                operator,
                left,
                right,
            } => {
                let row = row_between(operator, left, right);
                self.advanced(a, node, row, left, right)
            }
            _ => Err(NoMemory),
        }
    }

    #[cycle(uses)]
    fn part_points_to(&mut self, a: &Around, part: Option<Part<'_>>) -> Result<Pointing, NoMemory>
        ensures { Answers pointing_of result ((part_uses (around_of a.now) part.entry).pointing (state_of self.old)) (state_of self.new) }
    {
        match part {
            Some(part) => self.points_to(a, &part.opened()),
            None => Err(NoMemory),
        }
    }
}
