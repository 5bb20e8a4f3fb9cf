// A program that is made of a number.
ghost use Rattle.std.specs.Prelude.{◌≡◌, ◌<◌, ◌++◌, OnOk};
ghost use Rattle.life_vectors.specs.Generated.{Generates, function_line, lines, main_calling, main_line, next_state};

use crate::body::push_body;
use life_types::NoMemory;
use std::alloc::Global;
use thiserror::Error;

/// How many functions a generated program has at most, beside `main`.
pub const MOST_FUNCTIONS: u32 = 200;

/// Why no program was made.
#[derive(Clone, Copy, Debug, PartialEq, Eq, Error)]
pub enum GenFault {
    /// More functions are wanted than a generated program has.
    #[error("the size is too large")]
    SizeTooLarge,
    /// Memory was wanted and not had.
    #[error("no memory")]
    NoMemory,
}

impl From<NoMemory> for GenFault {
    ghost use Rattle.life_vectors.specs.Generated.{no_memory};

    ghost from_gives = { λ _ e. e ≡ no_memory };

    fn from(_: NoMemory) -> Self {
        GenFault::NoMemory
    }
}

/// The text of a program: `size` functions, a line each, of which each calls the one before, and `main`, which
/// calls the last. What each does follows from `number`: the states of a generator of numbers begin with `number`
/// modulo 65537, the next of x is 75 x + 74 modulo 65537, and the function with the number i, counted from 0, is
/// made of state i + 1. Equal numbers and sizes make equal texts. It is `SizeTooLarge` exactly where `size` is more
/// than 200, and the only other error is the want of memory.
pub fn generate(alloc: Global, number: u64, size: u32) -> Result<Vec<u8>, GenFault>
    ensures { Generates number size result }
{
    if size > MOST_FUNCTIONS {
        return Err(GenFault::SizeTooLarge);
    }
    let mut text = Vec::new(alloc);
    push_functions(alloc, number, size, &mut text)?;
    push_main(alloc, size, &mut text)?;
    Ok(text)
}

fn push_functions(alloc: Global, number: u64, size: u32, out: &mut Vec<u8>) -> Result<(), NoMemory>
    ensures { OnOk result (out.new.items ≡ out.old.items ++ lines number size) }
{
    let mut state = (number % 65537) as u32;
    for index in 0..size {
        let next = next_state(state);
        push_function(alloc, index, next, out)?;
        state = next;
    }
    Ok(())
}

fn next_state(state: u32) -> u32
    requires { state < 65537 }
    ensures { result ≡ next_state state }
{
    (75 * state + 74) % 65537
}

fn push_function(alloc: Global, index: u32, state: u32, out: &mut Vec<u8>) -> Result<(), NoMemory>
    ensures { OnOk result (out.new.items ≡ out.old.items ++ function_line index state) }
{
    let head = format!(in alloc; "int f{index}(int n) {{ ")?;
    out.extend_from_slice(head.as_bytes())?;
    push_body(alloc, index, state, out)?;
    out.extend_from_slice(b" }\n")?;
    Ok(())
}

fn push_main(alloc: Global, size: u32, out: &mut Vec<u8>) -> Result<(), NoMemory>
    ensures { OnOk result (out.new.items ≡ out.old.items ++ main_line size) }
{
    if size == 0 {
        out.extend_from_slice(b"int main() { return 1; }\n")?;
        Ok(())
    } else {
        push_main_calling(alloc, size - 1, out)
    }
}

fn push_main_calling(alloc: Global, last: u32, out: &mut Vec<u8>) -> Result<(), NoMemory>
    ensures { OnOk result (out.new.items ≡ out.old.items ++ main_calling last) }
{
    let line = format!(in alloc; "int main() {{ return f{last}(1); }}\n")?;
    out.extend_from_slice(line.as_bytes())?;
    Ok(())
}
