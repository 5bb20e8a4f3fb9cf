// The core program of a typed one.
ghost use Rattle.std.specs.Prelude.{◌≡◌, IfOk, map};
ghost use Rattle.life_core.specs.Function.{function_of, member_names, name_bytes, program_of};
ghost use Rattle.life_elab.specs.Bounds.{HaveNumberedLocals};
ghost use Rattle.life_elab.specs.Elaborated.{Elaborates};
ghost use Rattle.life_elab.specs.ProgramForms.{all_functions};
ghost use Rattle.life_elab.specs.Programs as spec;
ghost use Rattle.life_typed.specs.Programs.{program_view, struct_view, text_view};

use crate::dropping::drop_functions;
use crate::fault::ElabFault;
use crate::functions::function;
use crate::limits::over;
use life_core::{CoreFn, CoreProgram, Names};
use life_typed::{Typed, TypedStruct};
use life_types::{NameId, NoMemory, TypeTable};
use life_writer::Around;
use std::alloc::Global;
use std::vec::Vec;

// The one byte that `std::endl` writes (ISO/IEC 14882:2017 [ostream.manip]).
const LINE_END: [u8; 1] = [10];

fn copied_text(text: &Vec<u8>) -> Result<Vec<u8>, NoMemory>
    ensures { IfOk result (λ copy. text_view copy ≡ text_view text.now) }
{
    Ok(text.clone()?)
}

// Copies of texts.
fn copied_texts(alloc: Global, texts: &[Vec<u8>]) -> Result<Vec<Vec<u8>>, NoMemory>
    ensures { IfOk result (λ copies. map text_view copies.items ≡ map text_view texts.now) }
{
    let mut copies = Vec::new(alloc);
    'texts: for text in texts {
        copies.push(copied_text(text)?)?;
    }
    Ok(copies)
}

// The texts of the file, and behind them what endl writes.
fn texts_of(alloc: Global, typed: &Typed) -> Result<Vec<Vec<u8>>, NoMemory>
    ensures { IfOk result (λ texts. map name_bytes texts.items ≡ spec.texts_of (program_view typed.now)) }
{
    let mut texts = copied_texts(alloc, &typed.texts)?;
    texts.push(LINE_END.to_vec(alloc)?)?;
    Ok(texts)
}

fn members_in(structure: &TypedStruct) -> Result<Vec<NameId>, NoMemory>
    ensures { IfOk result (λ members. member_names members ≡ spec.member_names (struct_view structure.now)) }
{
    Ok(structure.members.clone()?)
}

// The names of the members of each struct.
fn members_of(alloc: Global, structs: &[TypedStruct]) -> Result<Vec<Vec<NameId>>, NoMemory>
    ensures { IfOk result (λ members. map member_names members.items ≡ map spec.member_names (map struct_view structs.now)) }
{
    let mut members = Vec::new(alloc);
    'structs: for structure in structs {
        members.push(members_in(structure)?)?;
    }
    Ok(members)
}

// The functions in their order; the table of types grows from one to the next.
fn functions(alloc: Global, typed: &Typed) -> Result<(Vec<CoreFn>, TypeTable), NoMemory>
    ensures functions { IfOk result (λ r. map function_of r.0.items ≡ (all_functions (program_view typed.now)).functions) }
    ensures numbered { IfOk result (λ r. HaveNumberedLocals (map function_of r.0.items)) }
    ensures types { IfOk result (λ r. r.1 ≡ (all_functions (program_view typed.now)).types) }
{
    let mut types = typed.types.copied(alloc)?;
    let mut written = Vec::new(alloc);
    'functions: for one in &typed.functions {
        let a = Around {
            program: typed,
            function: one,
        };
        let (core, grown) = function(alloc, &a, types)?;
        types = grown;
        written.push(core)?;
    }
    Ok((written, types))
}

/// The core program of a typed one, whatever its forms are: what each construct does, in the order of
/// evaluation (ISO/IEC 14882:2017 [intro.execution]; arguments are evaluated from left to right). The
/// locals of each function have numbers of 32 bits.
///
/// # Errors
///
/// `Limit` exactly where the program passes a limit, with the first: 1,024 functions, then of each
/// struct in the order of the file 32 members and 8 steps of a path, and then of each function 8 steps
/// of a path of a local, 256 locations, 1,024 points and 2,048 elements. `NoMemory` for want of memory,
/// which more locals, structs or types than 32 bits number count as, and so do trees that no source has.
pub fn elaborate(alloc: Global, typed: &Typed) -> Result<CoreProgram, ElabFault>
    ensures program { Elaborates (program_view typed.now) result }
    ensures numbered { IfOk result (λ core. HaveNumberedLocals (program_of core).functions) }
{
    let (functions, types) = functions(alloc, typed)?;
    // Where one passes a limit, or isn't asked for want of memory, some may nest deep.
    match over(alloc, typed, &types, &functions) {
        Ok(None) => {}
        Ok(Some(fault)) => {
            drop_functions(alloc, functions);
            return Err(ElabFault::Limit(fault));
        }
        Err(_) => {
            drop_functions(alloc, functions);
            return Err(ElabFault::NoMemory);
        }
    }
    Ok(CoreProgram {
        names: Names {
            texts: copied_texts(alloc, &typed.names)?,
            members: members_of(alloc, &typed.structs)?,
        },
        types,
        texts: texts_of(alloc, typed)?,
        functions,
    })
}
