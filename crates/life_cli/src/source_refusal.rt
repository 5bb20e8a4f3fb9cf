// Refusals of a file's text: a line on err, and nothing on out.
ghost use Rattle.std.specs.Prelude.{◌≡◌, ◌++◌, codes};
ghost use Rattle.life_types.specs.Places.{position_text};
ghost use Rattle.life_cli.specs.CheckedFile.{lex_fault_name, lex_fault_text, limit_name, limit_text};
ghost use Rattle.life_cli.specs.Ends.{Tells};
ghost use Rattle.life_cli.specs.IllFormed.{ill_name, ill_text};
ghost use Rattle.life_cli.specs.Refusals.{TellsFault};
ghost use Rattle.life_cli.specs.declared.status.Status.TheVariants.{Ill, Limit, Syntax};

use crate::Status;
use crate::refusal::tell;
use crate::stop::{Ending, Stop};
use life_check::CheckFault;
use life_lex::{LexFault, LexFaultKind};
use life_names::IllKind;
use life_tree::LimitName;
use life_types::Place;
use std::alloc::Global;

/// The line for a text that has no program that is checked.
pub fn refuse_text(alloc: Global, fault: CheckFault) -> Result<Ending, Stop>
    ensures { TellsFault fault result }
{
    match fault {
        CheckFault::Lex(fault) => refuse_lexical(alloc, fault),
        CheckFault::Syntax { place, .. } => refuse_syntax(alloc, place),
        CheckFault::Ill { kind, place } => refuse_ill(alloc, kind, place),
        CheckFault::Limit(fault) => refuse_limit(alloc, fault.name, fault.place),
        CheckFault::NoMemory => Err(Stop::NoMemory),
    }
}

// The line for a token at which no program goes on.
fn refuse_syntax(alloc: Global, place: Place) -> Result<Ending, Stop>
    ensures { Tells Syntax (position_text place ++ codes ": syntax") result }
{
    let line = place.line;
    let column = place.column;
    let text = format!(in alloc; "{line}:{column}: syntax")?;
    tell(alloc, Status::Syntax, text.as_str())
}

// The line for a limit that is passed.
fn refuse_limit(alloc: Global, name: LimitName, place: Option<Place>) -> Result<Ending, Stop>
    ensures { Tells Limit (limit_text name place) result }
{
    let name = limit_name(name);
    match place {
        Some(place) => {
            let line = place.line;
            let column = place.column;
            let text = format!(in alloc; "{line}:{column}: limit: {name}")?;
            tell(alloc, Status::Limit, text.as_str())
        }
        None => {
            let text = format!(in alloc; "limit: {name}")?;
            tell(alloc, Status::Limit, text.as_str())
        }
    }
}

// The line for a rule that is broken.
fn refuse_ill(alloc: Global, kind: IllKind, place: Place) -> Result<Ending, Stop>
    ensures { Tells Ill (ill_text kind place) result }
{
    let line = place.line;
    let column = place.column;
    let name = ill_name(kind);
    let text = format!(in alloc; "{line}:{column}: ill-formed: {name}")?;
    tell(alloc, Status::Ill, text.as_str())
}

fn ill_name(kind: IllKind) -> &'static str
    ensures { result.now ≡ ill_name kind }
{
    match kind {
        IllKind::UnknownName => "unknown-name",
        IllKind::Redeclared => "redeclared",
        IllKind::WrongType => "wrong-type",
        IllKind::NotPlain => "not-plain",
        IllKind::NotAssignable => "not-assignable",
        IllKind::WrongArguments => "wrong-arguments",
        IllKind::MissingReturn => "missing-return",
        IllKind::ConstBroken => "const-broken",
        IllKind::BadAttribute => "bad-attribute",
        IllKind::NoBody => "no-body",
        IllKind::Unsupported => "unsupported",
    }
}

fn limit_name(name: LimitName) -> &'static str
    ensures { result.now ≡ limit_name name }
{
    match name {
        LimitName::File => "file",
        LimitName::Input => "input",
        LimitName::Size => "size",
        LimitName::Nesting => "nesting",
        LimitName::Functions => "functions",
        LimitName::Fields => "fields",
        LimitName::Path => "path",
        LimitName::Locations => "locations",
        LimitName::Points => "points",
        LimitName::Elements => "elements",
    }
}

// The line for a text with a lexical fault.
fn refuse_lexical(alloc: Global, fault: LexFault) -> Result<Ending, Stop>
    ensures { Tells Syntax (lex_fault_text fault) result }
{
    let line = fault.place.line;
    let column = fault.place.column;
    let name = lex_fault_name(fault.kind);
    let text = format!(in alloc; "{line}:{column}: {name}")?;
    tell(alloc, Status::Syntax, text.as_str())
}

fn lex_fault_name(kind: LexFaultKind) -> &'static str
    ensures { result.now ≡ lex_fault_name kind }
{
    match kind {
        LexFaultKind::BadByte => "bad byte",
        LexFaultKind::UnclosedText => "unclosed text",
        LexFaultKind::UnclosedComment => "unclosed comment",
        LexFaultKind::NumberTooLarge => "number too large",
    }
}
