// A function, as its lines come.
use crate::body::Body;
use crate::instructions::instruction;
use crate::kinds::add;
use crate::refusal::Refusal;
use crate::scope::{Scope, location};
use crate::words::{fits, index, place, position, word_at, words_from};
use life_core::{Condition, CoreFn, Local, LocalKind, Names, Promise, Stmt, Test};
use life_types::{Class, NameId, Place, Ty, TyId, TypeTable, class_of, is_slot};
use std::alloc::Global;

/// What a local is declared as.
#[derive(Clone, Copy)]
pub enum Sort {
    Parameter { nonnull: bool, keeps: bool },
    Result,
    Variable,
    Temporary,
    Register,
    Range,
}

/// A function, as its lines come.
pub struct Draft {
    name: NameId,
    parameters: u32,
    gives: TyId,
    promise: Promise,
    locals: Vec<Local>,
    // The same locals, each with a name.
    named: Vec<Local>,
    // What the lines call them.
    called: Vec<String>,
    body: Body,
}

impl Drop for Draft {
    fn drop(self) {
        let Draft {
            name: _,
            parameters: _,
            gives: _,
            promise: _promise,
            locals: _locals,
            named: _named,
            called: _called,
            body: _body,
        } = self;
    }
}

// Where heads and declarations stand: no row asks for it.
const HEAD: Place = Place { line: 1, column: 1 };

impl Draft {
    pub fn new(alloc: Global, types: &mut TypeTable, name: NameId) -> Result<Draft, Refusal> {
        let gives = add(types, Ty::Void)?;
        let body = Body::new(alloc)?;
        Ok(Draft {
            name,
            parameters: 0,
            gives,
            promise: Promise::Default,
            locals: Vec::new(alloc),
            named: Vec::new(alloc),
            called: Vec::new(alloc),
            body,
        })
    }

    /// Adds a local.
    pub fn declare(
        &mut self,
        alloc: Global,
        names: &mut Names,
        types: &TypeTable,
        sort: Sort,
        word: &str,
        ty: TyId,
    ) -> Result<(), Refusal> {
        self.head(sort, ty)?;
        if position(&self.called, word).is_ok() {
            return Err(Refusal::Misplaced);
        }
        let name = add_name(alloc, names, word)?;
        let named = with_name(sort, kind_of(types, sort, ty), name, ty);
        self.locals.push(local(sort, named))?;
        self.named.push(named)?;
        self.called.push(String::from_str(alloc, word)?)?;
        Ok(())
    }

    // What a parameter and the result say of the function.
    fn head(&mut self, sort: Sort, ty: TyId) -> Result<(), Refusal> {
        let all_parameters = self.locals.len() == self.parameters as usize;
        match sort {
            Sort::Parameter { .. } if all_parameters => {
                self.parameters = self.parameters.saturating_add(1);
                Ok(())
            }
            Sort::Result if all_parameters => {
                self.gives = ty;
                Ok(())
            }
            Sort::Parameter { .. } | Sort::Result => Err(Refusal::Misplaced),
            _ => Ok(()),
        }
    }

    /// What the result may be: names of parameters, and `static` and `null`.
    pub fn promise(&mut self, alloc: Global, words: &[&str]) -> Result<(), Refusal> {
        let mut inputs = Vec::new(alloc);
        let mut fixed = false;
        let mut null = false;
        for word in words {
            match *word {
                "static" => fixed = true,
                "null" => null = true,
                _ => inputs.push(position(&self.called, word)?)?,
            }
        }
        self.promise = Promise::Listed {
            inputs,
            fixed,
            null,
        };
        Ok(())
    }

    /// A line of the body.
    pub fn line(
        &mut self,
        alloc: Global,
        functions: &[String],
        words: &[&str],
    ) -> Result<(), Refusal> {
        match word_at(words, 0) {
            "break" if words.len() == 1 => self.body.push(Stmt::Break),
            "continue" if words.len() == 1 => self.body.push(Stmt::Continue),
            word => {
                if BLOCKS.contains(&word) && words.len() == 1 {
                    self.body.turn(alloc, word)
                } else if CONDITIONS.contains(&word) && words.len() == 1 {
                    self.body.combine(alloc, word)
                } else {
                    self.placed(alloc, functions, place(word)?, words_from(words, 1))
                }
            }
        }
    }

    // A line that has a place.
    fn placed(
        &mut self,
        alloc: Global,
        functions: &[String],
        at: Place,
        words: &[&str],
    ) -> Result<(), Refusal> {
        if fits("return", words) {
            self.body.push(Stmt::Return(at))
        } else if fits("stop", words) {
            self.body.push(Stmt::Stop(at))
        } else if fits("test ..", words) {
            let test = test(alloc, &self.called, words)?;
            self.body.ask(Condition::Single(at, test))
        } else {
            let scope = Scope {
                alloc,
                words,
                locals: &self.called,
                functions,
            };
            let instr = instruction(scope)?;
            self.body.push(Stmt::Do(at, instr))
        }
    }

    /// The function, and beside it one without statements that has a name for each local.
    pub fn finish(self) -> Result<(CoreFn, CoreFn), Refusal> {
        let Draft {
            name,
            parameters,
            gives,
            promise,
            locals,
            named,
            called: _called,
            body,
        } = self;
        let function = CoreFn {
            name,
            place: HEAD,
            parameters,
            result: gives,
            promise,
            locals,
            body: body.whole()?,
        };
        let named = CoreFn {
            name,
            place: HEAD,
            parameters,
            result: gives,
            promise: Promise::Default,
            locals: named,
            body: Stmt::Break,
        };
        Ok((function, named))
    }
}

const BLOCKS: [&str; 6] = ["if", "else", "while", "step", "compute", "end"];

const CONDITIONS: [&str; 4] = ["and", "or", "not", "after"];

// `test R`: whether it isn't 0; `test P not null`.
fn test(alloc: Global, called: &[String], words: &[&str]) -> Result<Test, Refusal> {
    if fits("test _", words) {
        Ok(Test::NonZero(position(called, word_at(words, 1))?))
    } else if fits("test _ not null", words) {
        Ok(Test::NotNull(location(alloc, called, word_at(words, 1))?))
    } else {
        Err(Refusal::NoForm)
    }
}

/// Adds a name to those of the program.
pub fn add_name(alloc: Global, names: &mut Names, word: &str) -> Result<NameId, Refusal> {
    let number = index(names.texts.len())?;
    names.texts.push(word.as_bytes().to_vec(alloc)?)?;
    Ok(NameId(number))
}

fn local(sort: Sort, named: Local) -> Local {
    let mut made = named;
    match sort {
        Sort::Parameter { .. } | Sort::Variable => {}
        _ => made.name = None,
    }
    made
}

fn with_name(sort: Sort, kind: LocalKind, name: NameId, ty: TyId) -> Local {
    let (nonnull, keeps) = match sort {
        Sort::Parameter { nonnull, keeps } => (nonnull, keeps),
        _ => (false, false),
    };
    Local {
        name: Some(name),
        ty,
        kind,
        place: HEAD,
        nonnull,
        keeps,
    }
}

// Where a local lies. A pointer lies in a register, and so does a value that is a result; a parameter that is a slot
// lies where what it refers to does.
fn kind_of(types: &TypeTable, sort: Sort, ty: TyId) -> LocalKind {
    match sort {
        Sort::Register => LocalKind::Register,
        Sort::Range => LocalKind::Range,
        Sort::Result => match class_of(types, ty) {
            Class::Value | Class::Pointer => LocalKind::Register,
            Class::Owner | Class::Aggregate => LocalKind::Object,
        },
        Sort::Parameter { .. } if refers_to_owner(types, ty) => LocalKind::Object,
        _ => match class_of(types, ty) {
            Class::Pointer => LocalKind::Register,
            _ => LocalKind::Object,
        },
    }
}

// Whether it is a slot of an owner.
fn refers_to_owner(types: &TypeTable, ty: TyId) -> bool {
    match types.get(ty) {
        Some(Ty::Reference { target, .. }) => {
            is_slot(types, ty) && matches!(class_of(types, target), Class::Owner)
        }
        _ => false,
    }
}
