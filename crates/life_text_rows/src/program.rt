// A core program, a line for each local and for each statement of a body.
use life_core::{CoreFn, CoreProgram, Stmt};
use std::alloc::{AllocError, Global};

/// The functions of the program.
pub fn core_told(alloc: Global, program: &CoreProgram) -> Result<String, AllocError> {
    let mut told = String::new(alloc);
    for function in &program.functions {
        add_function(&mut told, function)?;
    }
    Ok(told)
}

fn add_function(told: &mut String, function: &CoreFn) -> Result<(), AllocError> {
    let name = function.name;
    let place = function.place;
    let parameters = function.parameters;
    let result = function.result;
    writeln!(
        told,
        "{name:?} at {place:?}: {parameters} parameters, gives {result:?}"
    )?;
    for local in &function.locals {
        writeln!(told, "{local:?}")?;
    }
    add_statement(told, &function.body)
}

// The statements of a list have a line each.
fn add_statement(told: &mut String, statement: &Stmt) -> Result<(), AllocError> {
    match statement {
        Stmt::List(statements) => {
            for statement in statements {
                writeln!(told, "{statement:?}")?;
            }
            Ok(())
        }
        _ => writeln!(told, "{statement:?}"),
    }
}
