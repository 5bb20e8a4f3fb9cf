// Dropping functions that may nest deep: what is dropped whole is dropped level by level, each below
// the one around it.
use life_core::{Condition, CoreFn, Stmt};
use life_types::NoMemory;
use std::alloc::Global;

// What is still to be taken apart.
#[derive(Drop)]
enum Part {
    Statement(Stmt),
    Condition(Condition),
}

/// Drops functions part by part. For want of memory what is left is dropped as it is.
pub(crate) fn drop_functions(alloc: Global, functions: Vec<CoreFn>) {
    for function in functions {
        let CoreFn { body, .. } = function;
        let _ = take_apart(alloc, body);
    }
}

// Each part gives way to its own parts, until none is left.
fn take_apart(alloc: Global, body: Stmt) -> Result<(), NoMemory> {
    let mut parts = Vec::new(alloc);
    parts.push(Part::Statement(body))?;
    for _ in 0..u64::MAX {
        match parts.pop() {
            Some(Part::Statement(statement)) => push_parts(statement, &mut parts)?,
            Some(Part::Condition(condition)) => push_condition_parts(condition, &mut parts)?,
            None => return Ok(()),
        }
    }
    Ok(())
}

fn push_parts(statement: Stmt, parts: &mut Vec<Part>) -> Result<(), NoMemory> {
    match statement {
        Stmt::List(items) => push_items(items, parts),
        Stmt::Do(_place, _instr) => Ok(()),
        Stmt::Branch(condition, first, second) => push_ways(condition, first, second, parts),
        Stmt::Loop {
            condition,
            body,
            step,
        } => push_ways(condition, body, step, parts),
        Stmt::Break => Ok(()),
        Stmt::Continue => Ok(()),
        Stmt::Return(_place) => Ok(()),
        Stmt::Stop(_place) => Ok(()),
    }
}

fn push_items(items: Vec<Stmt>, parts: &mut Vec<Part>) -> Result<(), NoMemory> {
    for item in items {
        parts.push(Part::Statement(item))?;
    }
    Ok(())
}

// The parts of a branch or a loop.
fn push_ways(
    condition: Condition,
    first: Box<Stmt>,
    second: Box<Stmt>,
    parts: &mut Vec<Part>,
) -> Result<(), NoMemory> {
    parts.push(Part::Condition(condition))?;
    parts.push(Part::Statement(Box::into_inner(first)))?;
    parts.push(Part::Statement(Box::into_inner(second)))?;
    Ok(())
}

fn push_condition_parts(condition: Condition, parts: &mut Vec<Part>) -> Result<(), NoMemory> {
    match condition {
        Condition::After(before, last) => {
            parts.push(Part::Statement(Box::into_inner(before)))?;
            push_condition(last, parts)
        }
        Condition::Single(_place, _test) => Ok(()),
        Condition::And(first, second) => {
            push_condition(first, parts)?;
            push_condition(second, parts)
        }
        Condition::Or(first, second) => {
            push_condition(first, parts)?;
            push_condition(second, parts)
        }
        Condition::Not(inner) => push_condition(inner, parts),
    }
}

fn push_condition(condition: Box<Condition>, parts: &mut Vec<Part>) -> Result<(), NoMemory> {
    parts.push(Part::Condition(Box::into_inner(condition)))?;
    Ok(())
}
