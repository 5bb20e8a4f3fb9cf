// Instructions as lines: each kind has a form, in which `_` stands for a word.
use crate::refusal::Refusal;
use crate::scope::Scope;
use crate::words::{fits, position};
use life_core::{
    Argument, Change, Characters, Direction, FnId, Form, Instr, Made, Operation, Operator, Port,
    Source, Which,
};

#[derive(Clone, Copy)]
enum Kind {
    Live(Form),
    End,
    Number,
    Convert,
    Negate,
    IsZero,
    Binary,
    Load,
    Save,
    Copy,
    Move,
    AimNull,
    AimText,
    AimEmpty,
    AimPlace,
    AimWhole,
    AimGet,
    Repoint,
    Element,
    Index,
    Cursor,
    Advance,
    Cut,
    CutCount,
    Size,
    Same(bool),
    PushBack,
    PopBack,
    Clear,
    Reserve,
    Erase,
    SetView,
    SetSingle,
    AppendView,
    AppendSingle,
    Make(Made),
    MakeOf,
    Call,
    CallFor,
    WriteValue,
    WriteView,
    Take,
}

const FORMS: [(&str, Kind); 45] = [
    ("live _", Kind::Live(Form::Plain)),
    ("live _ as zero", Kind::Live(Form::Zero)),
    ("end ..", Kind::End),
    ("number _ is _", Kind::Number),
    ("convert _ to _", Kind::Convert),
    ("negate _ to _", Kind::Negate),
    ("is-zero _ to _", Kind::IsZero),
    ("_ _ _ to _", Kind::Binary),
    ("load _ from _", Kind::Load),
    ("save _ to _", Kind::Save),
    ("copy _ to _", Kind::Copy),
    ("move _ to _", Kind::Move),
    ("aim _ at null", Kind::AimNull),
    ("aim _ at empty", Kind::AimEmpty),
    ("aim _ at text _", Kind::AimText),
    ("aim _ at place _", Kind::AimPlace),
    ("aim _ at whole _", Kind::AimWhole),
    ("aim _ at get _", Kind::AimGet),
    ("repoint _ to _", Kind::Repoint),
    ("element _ is _ of _ _", Kind::Element),
    ("element _ is index _ of _ _", Kind::Index),
    ("cursor _ is _ of _ _", Kind::Cursor),
    ("advance _ from _ _ by _", Kind::Advance),
    ("cut _ from _ at _", Kind::Cut),
    ("cut _ from _ at _ for _", Kind::CutCount),
    ("size _ of _ _", Kind::Size),
    ("same _ of _ _", Kind::Same(true)),
    ("different _ of _ _", Kind::Same(false)),
    ("change _ push-back _", Kind::PushBack),
    ("change _ pop-back", Kind::PopBack),
    ("change _ clear", Kind::Clear),
    ("change _ reserve _", Kind::Reserve),
    ("change _ erase _ into _", Kind::Erase),
    ("change _ set view _", Kind::SetView),
    ("change _ set character _", Kind::SetSingle),
    ("change _ append view _", Kind::AppendView),
    ("change _ append character _", Kind::AppendSingle),
    ("make _ null", Kind::Make(Made::Null)),
    ("make _ zero", Kind::Make(Made::Zero)),
    ("make _ of _", Kind::MakeOf),
    ("call _ with ..", Kind::Call),
    ("call _ into _ with ..", Kind::CallFor),
    ("write value _", Kind::WriteValue),
    ("write view _", Kind::WriteView),
    ("take _", Kind::Take),
];

/// The instruction that a line without its place says.
pub fn instruction(s: Scope) -> Result<Instr, Refusal> {
    said(kind_of(s)?, s)
}

fn kind_of(s: Scope) -> Result<Kind, Refusal> {
    for form in &FORMS {
        if fits(form.0, s.words) {
            return Ok(form.1);
        }
    }
    Err(Refusal::NoForm)
}

fn said(kind: Kind, s: Scope) -> Result<Instr, Refusal> {
    match kind {
        Kind::Live(form) => live(s, form),
        Kind::End => end(s),
        Kind::Number | Kind::Convert | Kind::Negate | Kind::IsZero | Kind::Binary => eval(kind, s),
        Kind::Load => load(s),
        Kind::Save => save(s),
        Kind::Copy => copy(s),
        Kind::Move => move_from(s),
        Kind::AimNull | Kind::AimText | Kind::AimEmpty => aim(s, fixed_source(kind, s)?),
        Kind::AimPlace | Kind::AimWhole | Kind::AimGet => aim(s, source(kind, s)?),
        Kind::Repoint => repoint(s),
        Kind::Element => element(s, s.which(3)?, 5, 6),
        Kind::Index => element(s, Which::Index(s.local(4)?), 6, 7),
        Kind::Cursor => cursor(s),
        Kind::Advance => advance(s),
        Kind::Cut => cut(s, None),
        Kind::CutCount => cut(s, Some(s.local(7)?)),
        Kind::Size => size(s),
        Kind::Same(equal) => same(s, equal),
        Kind::PushBack | Kind::PopBack | Kind::Clear | Kind::Reserve => {
            changed(s, simple_change(kind, s)?)
        }
        Kind::Erase => erase(s),
        Kind::SetView => changed(s, Change::Set(Characters::View(s.location(4)?))),
        Kind::SetSingle => changed(s, Change::Set(Characters::Single(s.local(4)?))),
        Kind::AppendView => changed(s, Change::Append(Characters::View(s.location(4)?))),
        Kind::AppendSingle => changed(s, Change::Append(Characters::Single(s.local(4)?))),
        Kind::Make(made) => make(s, made),
        Kind::MakeOf => make(s, Made::Of(s.local(3)?)),
        Kind::Call => call(s),
        Kind::CallFor => call_for(s),
        Kind::WriteValue => Ok(Instr::Port(Port::Value(s.local(2)?))),
        Kind::WriteView => Ok(Instr::Port(Port::View(s.location(2)?))),
        Kind::Take => Ok(Instr::Port(Port::Take(s.local(1)?))),
    }
}

fn live(s: Scope, form: Form) -> Result<Instr, Refusal> {
    Ok(Instr::Live {
        local: s.local(1)?,
        form,
    })
}

fn end(s: Scope) -> Result<Instr, Refusal> {
    let mut locals = Vec::new(s.alloc);
    for name in s.from(1) {
        locals.push(position(s.locals, name)?)?;
    }
    Ok(Instr::End { locals })
}

// ---- values

// `number R is 5`, or `KIND A to R`, or `A OPERATOR B to R`.
fn eval(kind: Kind, s: Scope) -> Result<Instr, Refusal> {
    let into = match kind {
        Kind::Number => s.local(1)?,
        Kind::Binary => s.local(4)?,
        _ => s.local(3)?,
    };
    let operation = operation(kind, s)?;
    Ok(Instr::Eval { into, operation })
}

fn operation(kind: Kind, s: Scope) -> Result<Operation, Refusal> {
    match kind {
        Kind::Number => Ok(Operation::Number(s.number(3)?)),
        Kind::Convert => Ok(Operation::Convert(s.local(1)?)),
        Kind::Negate => Ok(Operation::Negate(s.local(1)?)),
        Kind::IsZero => Ok(Operation::IsZero(s.local(1)?)),
        _ => Ok(Operation::Binary {
            operator: operator(s.word(1))?,
            left: s.local(0)?,
            right: s.local(2)?,
        }),
    }
}

const OPERATORS: [(&str, Operator); 11] = [
    ("+", Operator::Add),
    ("-", Operator::Subtract),
    ("*", Operator::Multiply),
    ("/", Operator::Divide),
    ("%", Operator::Remainder),
    ("<", Operator::Less),
    ("<=", Operator::LessEqual),
    (">", Operator::Greater),
    (">=", Operator::GreaterEqual),
    ("==", Operator::Equal),
    ("!=", Operator::NotEqual),
];

fn operator(word: &str) -> Result<Operator, Refusal> {
    for operator in &OPERATORS {
        if operator.0 == word {
            return Ok(operator.1);
        }
    }
    Err(Refusal::NoForm)
}

fn load(s: Scope) -> Result<Instr, Refusal> {
    let into = s.local(1)?;
    let from = s.operand(3)?;
    Ok(Instr::Load { into, from })
}

fn save(s: Scope) -> Result<Instr, Refusal> {
    let from = s.local(1)?;
    let to = s.operand(3)?;
    Ok(Instr::Save { to, from })
}

fn copy(s: Scope) -> Result<Instr, Refusal> {
    let from = s.operand(1)?;
    let to = s.operand(3)?;
    Ok(Instr::Copy { to, from })
}

fn move_from(s: Scope) -> Result<Instr, Refusal> {
    let from = s.local(1)?;
    let to = s.operand(3)?;
    Ok(Instr::Move { to, from })
}

// ---- pointers

fn aim(s: Scope, source: Source) -> Result<Instr, Refusal> {
    let pointer = s.location(1)?;
    Ok(Instr::Aim { pointer, source })
}

fn fixed_source(kind: Kind, s: Scope) -> Result<Source, Refusal> {
    match kind {
        Kind::AimNull => Ok(Source::Null),
        Kind::AimText => Ok(Source::Text(s.number(4)?)),
        _ => Ok(Source::Empty),
    }
}

fn source(kind: Kind, s: Scope) -> Result<Source, Refusal> {
    match kind {
        Kind::AimPlace => Ok(Source::Place(s.operand(4)?)),
        Kind::AimWhole => Ok(Source::Whole(s.operand(4)?)),
        _ => Ok(Source::Get(s.location(4)?)),
    }
}

fn repoint(s: Scope) -> Result<Instr, Refusal> {
    let pointer = s.location(1)?;
    let from = s.location(3)?;
    Ok(Instr::Repoint { pointer, from })
}

fn element(s: Scope, which: Which, sort: usize, at: usize) -> Result<Instr, Refusal> {
    let pointer = s.location(1)?;
    let base = s.base(sort, at)?;
    Ok(Instr::Element {
        pointer,
        base,
        which,
    })
}

fn cursor(s: Scope) -> Result<Instr, Refusal> {
    let end = s.end(3)?;
    let pointer = s.location(1)?;
    let base = s.base(5, 6)?;
    Ok(Instr::Cursor { pointer, base, end })
}

fn direction(word: &str) -> Result<Direction, Refusal> {
    match word {
        "forward" => Ok(Direction::Forward),
        "backward" => Ok(Direction::Backward),
        _ => Err(Refusal::NoForm),
    }
}

fn advance(s: Scope) -> Result<Instr, Refusal> {
    let direction = direction(s.word(4))?;
    let count = s.local(6)?;
    let pointer = s.location(1)?;
    let from = s.location(3)?;
    Ok(Instr::Advance {
        pointer,
        from,
        count,
        direction,
    })
}

fn cut(s: Scope, count: Option<u32>) -> Result<Instr, Refusal> {
    let index = s.local(5)?;
    let pointer = s.location(1)?;
    let from = s.location(3)?;
    Ok(Instr::Cut {
        pointer,
        from,
        index,
        count,
    })
}

fn size(s: Scope) -> Result<Instr, Refusal> {
    let into = s.local(1)?;
    let base = s.base(3, 4)?;
    Ok(Instr::Size { into, base })
}

fn same(s: Scope, equal: bool) -> Result<Instr, Refusal> {
    let into = s.local(1)?;
    let left = s.location(3)?;
    let right = s.location(4)?;
    Ok(Instr::Same {
        into,
        left,
        right,
        equal,
    })
}

// ---- owners

fn changed(s: Scope, change: Change) -> Result<Instr, Refusal> {
    let place = s.operand(1)?;
    Ok(Instr::Change { place, change })
}

fn simple_change(kind: Kind, s: Scope) -> Result<Change, Refusal> {
    match kind {
        Kind::PushBack => Ok(Change::PushBack(s.local(3)?)),
        Kind::Reserve => Ok(Change::Reserve(s.local(3)?)),
        Kind::PopBack => Ok(Change::PopBack),
        _ => Ok(Change::Clear),
    }
}

fn erase(s: Scope) -> Result<Instr, Refusal> {
    let at = s.location(3)?;
    let into = s.location(5)?;
    changed(s, Change::Erase { at, into })
}

fn make(s: Scope, made: Made) -> Result<Instr, Refusal> {
    let owner = s.location(1)?;
    Ok(Instr::Make { owner, made })
}

// ---- calls

fn call(s: Scope) -> Result<Instr, Refusal> {
    let function = FnId(s.function(1)?);
    let arguments = arguments(s, s.from(3))?;
    Ok(Instr::Call {
        target: None,
        function,
        arguments,
    })
}

fn call_for(s: Scope) -> Result<Instr, Refusal> {
    let function = FnId(s.function(1)?);
    let target = s.location(3)?;
    let arguments = arguments(s, s.from(5))?;
    Ok(Instr::Call {
        target: Some(target),
        function,
        arguments,
    })
}

// `value R`, `given T`, `pointer P` and `slot P`, one behind the other.
fn arguments(s: Scope, words: &[&str]) -> Result<Vec<Argument>, Refusal> {
    let mut arguments = Vec::new(s.alloc);
    let mut sort = "";
    for word in words {
        if sort == "" {
            sort = word;
        } else {
            arguments.push(argument(s, sort, word)?)?;
            sort = "";
        }
    }
    if sort == "" {
        Ok(arguments)
    } else {
        Err(Refusal::NoForm)
    }
}

fn argument(s: Scope, sort: &str, word: &str) -> Result<Argument, Refusal> {
    match sort {
        "value" => Ok(Argument::Value(position(s.locals, word)?)),
        "given" => Ok(Argument::Given(position(s.locals, word)?)),
        "pointer" => Ok(Argument::Pointer(s.named(word)?)),
        "slot" => Ok(Argument::Slot(s.named(word)?)),
        _ => Err(Refusal::NoForm),
    }
}
