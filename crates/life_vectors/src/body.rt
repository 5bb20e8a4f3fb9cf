// The bodies of the functions that are made.
ghost use Rattle.std.specs.Prelude.{◌≡◌, ◌<◌, ◌++◌, ◌%◌, string_bytes, IfOk, OnOk};
ghost use Rattle.life_vectors.specs.Generated.{argument, around, body, body_of, call_of, kind_of, owner_body, pointer_body, text_body, vector_body};

use life_types::NoMemory;
use std::alloc::{AllocError, Global};

/// What a function is about.
#[derive(Clone, Copy)]
pub(crate) enum BodyKind {
    Pointer,
    Vector,
    Owner,
    Text,
}

/// The body of the function with this number.
pub(crate) fn push_body(
    alloc: Global,
    index: u32,
    state: u32,
    out: &mut Vec<u8>,
) -> Result<(), NoMemory>
    ensures { OnOk result (out.new.items ≡ out.old.items ++ body_of index state) }
{
    let argument = argument(alloc, index)?;
    push_kind(alloc, kind_of(state), argument.as_str(), state % 100, out)
}

fn kind_of(state: u32) -> BodyKind
    ensures { result ≡ kind_of (state % 4) }
{
    match state % 4 {
        0 => BodyKind::Pointer,
        1 => BodyKind::Vector,
        2 => BodyKind::Owner,
        _ => BodyKind::Text,
    }
}

// What is handed on: the parameter, or what the function before makes of it.
fn argument(alloc: Global, index: u32) -> Result<String, AllocError>
    ensures { IfOk result (λ text. string_bytes text ≡ argument index) }
{
    if index == 0 {
        String::from_str(alloc, "n")
    } else {
        call_of(alloc, index - 1)
    }
}

fn call_of(alloc: Global, before: u32) -> Result<String, AllocError>
    ensures { IfOk result (λ text. string_bytes text ≡ call_of before) }
{
    format!(in alloc; "f{before}(n)")
}

fn push_kind(
    alloc: Global,
    kind: BodyKind,
    argument: &str,
    constant: u32,
    out: &mut Vec<u8>,
) -> Result<(), NoMemory>
    ensures { OnOk result (out.new.items ≡ out.old.items ++ body kind argument.now constant) }
{
    match kind {
        BodyKind::Pointer => push_pointer(alloc, argument, constant, out),
        BodyKind::Vector => push_vector(alloc, argument, constant, out),
        BodyKind::Owner => push_owner(alloc, argument, constant, out),
        BodyKind::Text => push_text(alloc, argument, constant, out),
    }
}

fn push_pointer(
    alloc: Global,
    argument: &str,
    constant: u32,
    out: &mut Vec<u8>,
) -> Result<(), NoMemory>
    ensures { OnOk result (out.new.items ≡ out.old.items ++ pointer_body argument.now constant) }
{
    let end = "; return x;";
    push_around(
        alloc,
        "int x = ",
        argument,
        "; int* p = &x; *p += ",
        constant,
        end,
        out,
    )
}

fn push_vector(
    alloc: Global,
    argument: &str,
    constant: u32,
    out: &mut Vec<u8>,
) -> Result<(), NoMemory>
    ensures { OnOk result (out.new.items ≡ out.old.items ++ vector_body argument.now constant) }
{
    let begin = "std::vector<int> v; v.push_back(";
    let end = "); int t = 0; for (int x : v) { t += x; } return t;";
    push_around(
        alloc,
        begin,
        argument,
        "); v.push_back(",
        constant,
        end,
        out,
    )
}

fn push_owner(
    alloc: Global,
    argument: &str,
    constant: u32,
    out: &mut Vec<u8>,
) -> Result<(), NoMemory>
    ensures { OnOk result (out.new.items ≡ out.old.items ++ owner_body argument.now constant) }
{
    let begin = "auto u = std::make_unique<int>(";
    let end = "; auto w = std::move(u); return *w;";
    push_around(alloc, begin, argument, "); *u += ", constant, end, out)
}

fn push_text(
    alloc: Global,
    argument: &str,
    constant: u32,
    out: &mut Vec<u8>,
) -> Result<(), NoMemory>
    ensures { OnOk result (out.new.items ≡ out.old.items ++ text_body argument.now constant) }
{
    let begin = "std::string s = \"ab\"; std::string_view t = s; int r = ";
    push_around(
        alloc,
        begin,
        argument,
        "; return r + t.size() + ",
        constant,
        ";",
        out,
    )
}

// The texts, with the argument and the constant between them.
fn push_around(
    alloc: Global,
    begin: &str,
    argument: &str,
    middle: &str,
    constant: u32,
    end: &str,
    out: &mut Vec<u8>,
) -> Result<(), NoMemory>
    ensures { OnOk result (out.new.items ≡ out.old.items ++ around begin.now argument.now middle.now constant end.now) }
{
    let text = format!(in alloc; "{begin}{argument}{middle}{constant}{end}")?;
    out.extend_from_slice(text.as_bytes())?;
    Ok(())
}
