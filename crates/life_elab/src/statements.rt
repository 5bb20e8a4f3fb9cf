// Statements (ISO/IEC 14882:2017 [stmt.stmt]).
ghost use Rattle.std.specs.Prelude.{◌≡◌, IfOk, OnOk, Some, map, slice_get};
ghost use Rattle.life_core.specs.Tree.{Turns, condition_tree, tree_of};
ghost use Rattle.life_typed.specs.TypedForm.{typed_view};
ghost use Rattle.life_typed.specs.TypedStatement.{block_item_view, block_view, branch_view, for_of, for_start_view, item_view, optional_view, simple_view, stmt_forms, stmt_view};
ghost use Rattle.life_writer.specs.Answers.{Answers};
ghost use Rattle.life_writer.specs.Around.{result_local};
ghost use Rattle.life_writer.specs.PartUses.{expression_uses};
ghost use Rattle.life_writer.specs.Using as using;
ghost use Rattle.life_writer.specs.Initialising.{initialised_by};
ghost use Rattle.life_writer.specs.Temporaries.{temporary};
ghost use Rattle.life_types.specs.declared.ty.Class.TheVariants.{Owner};
ghost use Rattle.life_elab.specs.LastTokens.{last_token};
ghost use Rattle.life_elab.specs.OpenedViews.{opened_of};
ghost use Rattle.life_elab.specs.RangeForms as ranges;
ghost use Rattle.life_elab.specs.RangeForms.{ranged};
ghost use Rattle.life_elab.specs.SimpleForms.{simple_if};
ghost use Rattle.life_elab.specs.StatementForms as spec;
ghost use Rattle.life_elab.specs.Statements as shared;
ghost use Rattle.life_writer.specs.Views.{around_of, destination_of, state_of};
ghost use Rattle.life_elab.specs.Last.{last_view};
ghost use Rattle.life_writer.specs.Writing.{apart, write};

use crate::branches::{Opened, close_branches, nothing, write_branch};
use crate::declarations::declared;
use crate::ends::last_token;
use crate::ranges::{declared_from, goes_on, next_in_list, open_range};
use crate::simples::{write_simple, write_simple_if};
use life_core::{Condition, Instr, Location, Operation, Port, Source, Stmt, Test};
use life_typed::{
    TypedBlock, TypedBlockItem, TypedBranch, TypedExpr, TypedForHead, TypedForStart, TypedItem,
    TypedSimple, TypedStmt,
};
use life_types::{Class, NoMemory, Place, Ty, is_value};
use life_writer::{
    Act, Around, Behind, Destination, Keeping, Last, Pointing, Writer, class, named, own_type,
};

// A loop: while the condition holds, the body and then the step.
fn write_loop(
    writer: &mut Writer,
    condition: Condition,
    body: Stmt,
    step: Stmt,
) -> Result<(), NoMemory>
    ensures { OnOk result (state_of writer.new ≡ write (Turns (condition_tree condition) (tree_of body) (tree_of step)) (state_of writer.old)) }
{
    let body = Box::new(writer.alloc, body)?;
    let step = Box::new(writer.alloc, step)?;
    writer.write(Stmt::Loop {
        condition,
        body,
        step,
    })
}

// A condition that is left out always holds ([stmt.for]/2).
fn condition_or_true(
    writer: &mut Writer,
    a: &Around,
    keyword: Place,
    condition: &Option<TypedExpr>,
    behind: Place,
) -> Result<Condition, NoMemory>
    ensures { Answers condition_tree result (spec.condition_or_true (around_of a.now) keyword (optional_view typed_view condition.now) behind (state_of writer.old)) (state_of writer.new) }
{
    match condition {
        Some(condition) => writer.condition(a, condition, Behind::ending(behind)),
        None => {
            let before = writer.begin_test();
            let register = writer.eval(None, Ty::Bool, keyword, Operation::Number(1))?;
            writer.behind_code(before, keyword, None, Test::NonZero(register))
        }
    }
}

// What a loop by `for` begins with.
fn started(
    writer: &mut Writer,
    a: &Around,
    start: &Option<TypedForStart>,
    behind: Place,
) -> Result<(), NoMemory>
    ensures { OnOk result (state_of writer.new ≡ spec.started (around_of a.now) (optional_view for_start_view start.now) behind (state_of writer.old)) }
{
    match start {
        Some(TypedForStart::Declaration(declaration)) => declared(writer, a, declaration, behind),
        Some(TypedForStart::Simple(simple)) => write_simple(writer, a, simple, behind),
        None => Ok(()),
    }
}

// The step of a loop, in a list of its own.
fn step_of_loop(
    writer: &mut Writer,
    a: &Around,
    step: &Option<TypedSimple>,
    behind: Place,
) -> Result<Stmt, NoMemory>
    ensures { Answers tree_of result (apart (simple_if (around_of a.now) (optional_view simple_view step.now) behind) (state_of writer.old)) (state_of writer.new) }
{
    let before = writer.begin_list();
    write_simple_if(writer, a, step, behind)?;
    Ok(writer.end_list(before))
}

/// What is left ends, and control goes elsewhere ([stmt.jump]).
pub(crate) fn leave(
    writer: &mut Writer,
    outside: usize,
    keyword: Place,
    leaves: Stmt,
) -> Result<(), NoMemory>
    ensures { OnOk result (state_of writer.new ≡ shared.left outside keyword (tree_of leaves) (state_of writer.old)) }
{
    writer.end_past(outside, keyword)?;
    writer.write(leaves)
}

// What is declared in the innermost loop ends, and control leaves the loop or goes on with it.
fn leave_loop(writer: &mut Writer, keyword: Place, leaves: Stmt) -> Result<(), NoMemory>
    ensures { OnOk result (state_of writer.new ≡ shared.left (state_of writer.old).outside keyword (tree_of leaves) (state_of writer.old)) }
{
    let outside = writer.stays();
    leave(writer, outside, keyword, leaves)
}

// The value of a `return` goes to the local of the result.
fn value_given_back(
    writer: &mut Writer,
    a: &Around,
    value: &TypedExpr,
    ty: Ty,
    behind: Place,
) -> Result<(), NoMemory>
    ensures { OnOk result (state_of writer.new ≡ (using.value (expression_uses (around_of a.now) value.now) behind ty (Some (result_local (around_of a.now))) (state_of writer.old)).state) }
{
    let into = a.result_local()?;
    writer.value(a, value, behind, ty, Some(into))?;
    Ok(())
}

// .. by the class of the result.
fn given_back(
    writer: &mut Writer,
    a: &Around,
    value: &TypedExpr,
    keyword: Place,
    behind: Place,
) -> Result<(), NoMemory>
    ensures { OnOk result (state_of writer.new ≡ spec.given_back (around_of a.now) (typed_view value.now) keyword behind (state_of writer.old)) }
{
    let ty = a.type_of(a.function.result);
    match class(ty) {
        Class::Value => value_given_back(writer, a, value, ty, behind),
        Class::Pointer => built_back(writer, a, value, ty, keyword, behind),
        Class::Owner => owner_given_back(writer, a, value, ty, keyword, behind),
        Class::Aggregate => built_back(writer, a, value, ty, keyword, behind),
    }
}

// Where a result is built that no value is: what is built there comes to life at the keyword.
fn result_goal(a: &Around, keyword: Place, ty: Ty) -> Result<Destination, NoMemory>
    ensures { IfOk result (λ d. destination_of d ≡ spec.result (around_of a.now) keyword) }
{
    Ok(Destination::Register(keyword, Some(a.result_local()?), ty))
}

// A pointer, an owner or a struct is built into the result.
fn built_back(
    writer: &mut Writer,
    a: &Around,
    value: &TypedExpr,
    ty: Ty,
    keyword: Place,
    behind: Place,
) -> Result<(), NoMemory>
    ensures { OnOk result (state_of writer.new ≡ (initialised_by (around_of a.now) temporary (expression_uses (around_of a.now) value.now) ty behind (spec.result (around_of a.now) keyword) (state_of writer.old)).state) }
{
    let goal = result_goal(a, keyword, ty)?;
    writer.initialised(a, Keeping::Full, ty, value, behind, goal)?;
    Ok(())
}

// The object that a variable is, unless it refers to another.
fn object_named(writer: &Writer, a: &Around, value: &TypedExpr) -> Option<u32>
    ensures { result ≡ spec.object_named (expression_uses (around_of a.now) value.now).named (state_of writer.now) }
{
    match named(a, value) {
        Some(number) => writer.object_of(number),
        None => None,
    }
}

// An owner is moved out of what is named ([class.copy.elision]).
fn owner_given_back(
    writer: &mut Writer,
    a: &Around,
    value: &TypedExpr,
    ty: Ty,
    keyword: Place,
    behind: Place,
) -> Result<(), NoMemory>
    ensures { OnOk result (state_of writer.new ≡ spec.result_by (around_of a.now) Owner (expression_uses (around_of a.now) value.now) ty keyword behind (state_of writer.old)) }
{
    match object_named(writer, a, value) {
        Some(local) => {
            let goal = result_goal(a, keyword, ty)?;
            writer.built(Last::Lived(Act::Moved(local)), goal)?;
            Ok(())
        }
        None => built_back(writer, a, value, ty, keyword, behind),
    }
}

// .. which is a full expression up to the token behind it.
fn result_given(
    writer: &mut Writer,
    a: &Around,
    value: &Option<TypedExpr>,
    keyword: Place,
    behind: Place,
) -> Result<(), NoMemory>
    ensures { OnOk result (state_of writer.new ≡ spec.result_given (around_of a.now) (optional_view typed_view value.now) keyword behind (state_of writer.old)) }
{
    match value {
        Some(value) => {
            let pending = writer.pending_count();
            given_back(writer, a, value, keyword, behind)?;
            writer.end_pending(pending, behind)
        }
        None => Ok(()),
    }
}

// A number, a character or a truth goes out of a register, and characters are seen.
fn write_value(
    writer: &mut Writer,
    a: &Around,
    value: &TypedExpr,
    behind: Place,
) -> Result<(), NoMemory>
    ensures { OnOk result (state_of writer.new ≡ spec.written (expression_uses (around_of a.now) value.now) behind (state_of writer.old)) }
{
    let own = own_type(value.ty);
    if is_value(own) {
        let register = writer.value(a, value, behind, own, None)?;
        writer.emit(value.place, Instr::Port(Port::Value(register)))
    } else {
        let characters = writer.characters_of(a, value)?;
        let view = writer.viewed(characters)?;
        writer.emit(value.place, Instr::Port(Port::View(view)))
    }
}

// A printed item ([ostream.inserters.arithmetic]); `std::endl` writes the last text, which has
// the one byte 10.
fn write_item(
    writer: &mut Writer,
    a: &Around,
    item: &TypedItem,
    behind: Place,
) -> Result<(), NoMemory>
    ensures { OnOk result (state_of writer.new ≡ spec.item (around_of a.now) (item_view item.now) behind (state_of writer.old)) }
{
    match item {
        TypedItem::Value(value) => write_value(writer, a, value, behind),
        TypedItem::EndLine(place) => end_line(writer, a, *place),
    }
}

fn end_line(writer: &mut Writer, a: &Around, place: Place) -> Result<(), NoMemory>
    ensures { OnOk result (state_of writer.new ≡ shared.line (around_of a.now) place (state_of writer.old)) }
{
    let source = Source::Text(a.end_line()?);
    let last = Last::Point(place, Pointing::At(source));
    let register = writer.built(last, Destination::Register(place, None, Ty::View))?;
    let view = Location::whole(writer.alloc, register);
    writer.emit(place, Instr::Port(Port::View(view)))
}

fn write_items(
    writer: &mut Writer,
    a: &Around,
    items: &[TypedItem],
    behind: Place,
) -> Result<(), NoMemory>
    ensures { OnOk result (state_of writer.new ≡ spec.items (around_of a.now) (map item_view items.now) behind (state_of writer.old)) }
{
    'items: for item in items {
        write_item(writer, a, item, behind)?;
    }
    Ok(())
}

// All items are one full expression up to the token behind them.
fn write_output(
    writer: &mut Writer,
    a: &Around,
    items: &[TypedItem],
    behind: Place,
) -> Result<(), NoMemory>
    ensures { OnOk result (state_of writer.new ≡ spec.output (around_of a.now) (map item_view items.now) behind (state_of writer.old)) }
{
    let pending = writer.pending_count();
    write_items(writer, a, items, behind)?;
    writer.end_pending(pending, behind)
}

// A run ends where an assertion doesn't hold.
fn asserted(
    writer: &mut Writer,
    a: &Around,
    keyword: Place,
    condition: &TypedExpr,
    behind: Behind,
) -> Result<(), NoMemory>
    ensures { OnOk result (state_of writer.new ≡ shared.asserted (using.condition (expression_uses (around_of a.now) condition.now) behind) keyword (state_of writer.old)) }
{
    let condition = writer.condition(a, condition, behind)?;
    write_branch(
        writer,
        condition,
        Stmt::List(Vec::new(writer.alloc)),
        Stmt::Stop(keyword),
    )
}

/// A statement.
#[cycle(statements)]
pub(crate) fn write_statement(
    writer: &mut Writer,
    a: &Around,
    statement: &TypedStmt,
) -> Result<(), NoMemory>
    ensures { OnOk result (state_of writer.new ≡ spec.statement (around_of a.now) (stmt_view statement.now) (state_of writer.old)) }
{
    match statement {
        TypedStmt::Block(block) => write_block(writer, a, block),
        TypedStmt::Empty(_) => Ok(()),
        TypedStmt::Simple { simple, semicolon } => write_simple(writer, a, simple, *semicolon),
        TypedStmt::If { branches, last } => {
            let opened = open_branches(writer, a, branches)?;
            write_last(writer, a, last)?;
            close_branches(writer, opened)
        }
        TypedStmt::While {
            condition,
            closing,
            body,
            ..
        } => {
            let condition = writer.condition(a, condition, Behind::ending(*closing))?;
            let body = write_body_of_loop(writer, a, body)?;
            let step = nothing(writer.alloc);
            write_loop(writer, condition, body, step)
        }
        TypedStmt::For {
            keyword,
            head,
            closing,
            body,
        } => write_for(writer, a, *keyword, head, *closing, body),
        TypedStmt::RangeFor {
            local,
            colon,
            range,
            closing,
            body,
            ..
        } => write_range(writer, a, body, *local, *colon, range, *closing),
        TypedStmt::Break { keyword, .. } => leave_loop(writer, *keyword, Stmt::Break),
        TypedStmt::Continue { keyword, .. } => leave_loop(writer, *keyword, Stmt::Continue),
        TypedStmt::Return {
            keyword,
            value,
            semicolon,
        } => {
            result_given(writer, a, value, *keyword, *semicolon)?;
            leave(writer, 0, *keyword, Stmt::Return(*keyword))
        }
        TypedStmt::Print { items, semicolon } => write_output(writer, a, items, *semicolon),
        TypedStmt::Assert {
            keyword,
            condition,
            closing,
            ..
        } => asserted(writer, a, *keyword, condition, Behind::ending(*closing)),
    }
}

// A loop by `for`: what it declares ends behind it ([stmt.for]).
#[cycle(statements)]
fn write_for(
    writer: &mut Writer,
    a: &Around,
    keyword: Place,
    head: &TypedForHead,
    closing: Place,
    body: &TypedStmt,
) -> Result<(), NoMemory>
    ensures { OnOk result (state_of writer.new ≡ spec.statement (around_of a.now) (for_of keyword head.now closing (stmt_view body.now)) (state_of writer.old)) }
{
    let outside = writer.living_count();
    started(writer, a, &head.start, head.first_semicolon)?;
    let condition = condition_or_true(writer, a, keyword, &head.condition, head.second_semicolon)?;
    let repeated = write_body_of_loop(writer, a, body)?;
    let step = step_of_loop(writer, a, &head.step, closing)?;
    write_loop(writer, condition, repeated, step)?;
    writer.end_since(outside, last_token(body, closing))
}

// A loop over a range: a range that is a temporary ends behind it ([stmt.ranged]).
#[cycle(statements)]
fn write_range(
    writer: &mut Writer,
    a: &Around,
    body: &TypedStmt,
    local: u32,
    colon: Place,
    range: &TypedExpr,
    closing: Place,
) -> Result<(), NoMemory>
    ensures { OnOk result (state_of writer.new ≡ ranged (around_of a.now) (slice_get (around_of a.now).function.locals local) colon closing (last_token (stmt_view body.now) closing) (expression_uses (around_of a.now) range.now) (spec.statement (around_of a.now) (stmt_view body.now)) (state_of writer.old)) }
{
    let outside = writer.living_count();
    let last = last_token(body, closing);
    let iterators = open_range(writer, a, colon, closing, range)?;
    let condition = goes_on(writer, colon, iterators)?;
    let repeated = write_turns(writer, a, body, local, colon, range, last, iterators.first)?;
    let step = next_in_list(writer, colon, iterators)?;
    write_loop(writer, condition, repeated, step)?;
    writer.end_since(outside, last)
}

// What each turn does, in a list of its own. The variable ends in each turn where the body does.
#[cycle(statements)]
fn write_turns(
    writer: &mut Writer,
    a: &Around,
    body: &TypedStmt,
    local: u32,
    colon: Place,
    range: &TypedExpr,
    last: Place,
    iterator: u32,
) -> Result<Stmt, NoMemory>
    ensures { Answers tree_of result (apart (shared.body_of_loop (ranges.turn (around_of a.now) (slice_get (around_of a.now).function.locals local) colon last iterator (ranges.element_at (around_of a.now).program.types colon iterator (ranges.element_of (expression_uses (around_of a.now) range.now))) (spec.statement (around_of a.now) (stmt_view body.now)))) (state_of writer.old)) (state_of writer.new) }
{
    let around = writer.begin_loop();
    let before = writer.begin_list();
    let outside = writer.living_count();
    declared_from(writer, a, local, colon, range, iterator)?;
    write_statement(writer, a, body)?;
    writer.end_since(outside, last)?;
    let turns = writer.end_list(before);
    writer.end_loop(around);
    Ok(turns)
}

// A block: what is declared in it ends with it ([stmt.block]).
#[cycle(statements)]
fn write_block(writer: &mut Writer, a: &Around, block: &TypedBlock) -> Result<(), NoMemory>
    ensures { OnOk result (state_of writer.new ≡ spec.statement (around_of a.now) (block_view block.now) (state_of writer.old)) }
{
    let outside = writer.living_count();
    write_block_items(writer, a, &block.items)?;
    writer.end_since(outside, block.closing)
}

/// What stands in a block.
#[cycle(statements)]
pub(crate) fn write_block_items(
    writer: &mut Writer,
    a: &Around,
    items: &[TypedBlockItem],
) -> Result<(), NoMemory>
    ensures { OnOk result (state_of writer.new ≡ spec.statement (around_of a.now) (stmt_forms (map block_item_view items.now)) (state_of writer.old)) }
{
    'items: for item in items {
        write_block_item(writer, a, item)?;
    }
    Ok(())
}

#[cycle(statements)]
fn write_block_item(writer: &mut Writer, a: &Around, item: &TypedBlockItem) -> Result<(), NoMemory>
    ensures { OnOk result (state_of writer.new ≡ spec.statement (around_of a.now) (block_item_view item.now) (state_of writer.old)) }
{
    match item {
        TypedBlockItem::Declare {
            declaration,
            semicolon,
        } => declared(writer, a, declaration, *semicolon),
        TypedBlockItem::Stmt(statement) => write_statement(writer, a, statement),
    }
}

// A statement in a list of its own.
#[cycle(statements)]
fn write_apart(writer: &mut Writer, a: &Around, statement: &TypedStmt) -> Result<Stmt, NoMemory>
    ensures { Answers tree_of result (apart (spec.statement (around_of a.now) (stmt_view statement.now)) (state_of writer.old)) (state_of writer.new) }
{
    let before = writer.begin_list();
    write_statement(writer, a, statement)?;
    Ok(writer.end_list(before))
}

// What a loop repeats, in a list of its own. What is declared in it is left with the loop.
#[cycle(statements)]
fn write_body_of_loop(writer: &mut Writer, a: &Around, body: &TypedStmt) -> Result<Stmt, NoMemory>
    ensures { Answers tree_of result (apart (shared.body_of_loop (spec.statement (around_of a.now) (stmt_view body.now))) (state_of writer.old)) (state_of writer.new) }
{
    let outside = writer.begin_loop();
    let body = write_apart(writer, a, body)?;
    writer.end_loop(outside);
    Ok(body)
}

// A branch up to the list of what is done where its condition doesn't hold.
#[cycle(statements)]
fn open_branch(
    writer: &mut Writer,
    a: &Around,
    body: &TypedStmt,
    condition: &TypedExpr,
    behind: Behind,
) -> Result<Opened, NoMemory>
    ensures { Answers opened_of result (shared.opened (using.condition (expression_uses (around_of a.now) condition.now) behind) (spec.statement (around_of a.now) (stmt_view body.now)) (state_of writer.old)) (state_of writer.new) }
{
    let condition = writer.condition(a, condition, behind)?;
    let first = write_apart(writer, a, body)?;
    let before = writer.begin_list();
    Ok(Opened {
        condition,
        first,
        before,
    })
}

// The branches of an `if` one in the other ([stmt.if]).
#[cycle(statements)]
fn open_branches(
    writer: &mut Writer,
    a: &Around,
    branches: &[TypedBranch],
) -> Result<Vec<Opened>, NoMemory>
    ensures { Answers (λ opened. map opened_of opened.items) result (spec.opened_all (around_of a.now) (stmt_forms (map branch_view branches.now)) (state_of writer.old)) (state_of writer.new) }
{
    let mut opened = Vec::new(writer.alloc);
    'branches: for branch in branches {
        let behind = Behind::ending(branch.closing);
        let one = open_branch(writer, a, &branch.body, &branch.condition, behind)?;
        opened.push(one)?;
    }
    Ok(opened)
}

// What is done where no condition holds.
#[cycle(statements)]
fn write_last(
    writer: &mut Writer,
    a: &Around,
    last: &Option<Box<TypedStmt>>,
) -> Result<(), NoMemory>
    ensures { OnOk result (state_of writer.new ≡ spec.statement (around_of a.now) (last_view last.now) (state_of writer.old)) }
{
    match last {
        Some(last) => write_statement(writer, a, last),
        None => Ok(()),
    }
}
