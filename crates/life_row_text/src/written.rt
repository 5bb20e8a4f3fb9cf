// A program as its lines come.
use crate::draft::{Draft, Sort, add_name};
use crate::kinds::{add, add_struct, type_of};
use crate::lines::joined;
use crate::refusal::Refusal;
use crate::words::{fits, index, position, word_at, words_from};
use life_core::{CoreFn, CoreProgram, Names};
use life_types::{NameId, Ty, TyId, TypeTable};
use std::alloc::Global;

/// A program as its lines come.
pub struct Written {
    pub program: CoreProgram,
    /// Beside each function one without statements that has a name for each local.
    pub named: Vec<CoreFn>,
    functions: Vec<String>,
    structs: Vec<String>,
    members: Vec<TyId>,
    member_names: Vec<NameId>,
    draft: Option<Draft>,
}

impl Drop for Written {
    fn drop(self) {
        let Written {
            program: _program,
            named: _named,
            functions: _functions,
            structs: _structs,
            members: _members,
            member_names: _member_names,
            draft: _draft,
        } = self;
    }
}

#[derive(Clone, Copy)]
enum Kind {
    Text,
    Member,
    Struct,
    Function,
    Local(Sort),
    Promise,
}

const FORMS: [(&str, Kind); 13] = [
    ("text ..", Kind::Text),
    ("member _ ..", Kind::Member),
    ("struct _", Kind::Struct),
    ("function _", Kind::Function),
    (
        "parameter _ ..",
        Kind::Local(Sort::Parameter {
            nonnull: false,
            keeps: false,
        }),
    ),
    (
        "nonnull _ ..",
        Kind::Local(Sort::Parameter {
            nonnull: true,
            keeps: false,
        }),
    ),
    (
        "keeps _ ..",
        Kind::Local(Sort::Parameter {
            nonnull: false,
            keeps: true,
        }),
    ),
    ("result _ ..", Kind::Local(Sort::Result)),
    ("variable _ ..", Kind::Local(Sort::Variable)),
    ("temporary _ ..", Kind::Local(Sort::Temporary)),
    ("register _ ..", Kind::Local(Sort::Register)),
    ("range _ ..", Kind::Local(Sort::Range)),
    ("promise ..", Kind::Promise),
];

fn kind_of(words: &[&str]) -> Option<Kind> {
    for form in &FORMS {
        if fits(form.0, words) {
            return Some(form.1);
        }
    }
    None
}

impl Written {
    /// A program without functions. Its table of types has the type of views already.
    pub fn new(alloc: Global) -> Result<Written, Refusal> {
        let mut types = TypeTable::new(alloc);
        add(&mut types, Ty::View)?;
        Ok(Written {
            program: CoreProgram {
                names: Names {
                    texts: Vec::new(alloc),
                    members: Vec::new(alloc),
                },
                types,
                texts: Vec::new(alloc),
                functions: Vec::new(alloc),
            },
            named: Vec::new(alloc),
            functions: Vec::new(alloc),
            structs: Vec::new(alloc),
            members: Vec::new(alloc),
            member_names: Vec::new(alloc),
            draft: None,
        })
    }

    /// The next line that says a part of the program.
    pub fn line(&mut self, alloc: Global, words: &[&str]) -> Result<(), Refusal> {
        match kind_of(words) {
            None => self.statement(alloc, words),
            Some(Kind::Text) => self.text(alloc, words_from(words, 1)),
            Some(Kind::Member) => self.member(alloc, word_at(words, 1), words_from(words, 2)),
            Some(Kind::Struct) => self.end_struct(alloc, word_at(words, 1)),
            Some(Kind::Function) => self.function(alloc, word_at(words, 1)),
            Some(Kind::Local(sort)) => {
                self.local(alloc, sort, word_at(words, 1), words_from(words, 2))
            }
            Some(Kind::Promise) => self.promise(alloc, words_from(words, 1)),
        }
    }

    fn statement(&mut self, alloc: Global, words: &[&str]) -> Result<(), Refusal> {
        match &mut self.draft {
            None => Err(Refusal::NotBegun),
            Some(draft) => draft.line(alloc, &self.functions, words),
        }
    }

    // A string literal.
    fn text(&mut self, alloc: Global, words: &[&str]) -> Result<(), Refusal> {
        let text = joined(alloc, words)?;
        self.program.texts.push(text.into_bytes())?;
        Ok(())
    }

    // ---- structs

    fn member(&mut self, alloc: Global, name: &str, words: &[&str]) -> Result<(), Refusal> {
        let ty = type_of(&mut self.program.types, &self.structs, words)?;
        let name = add_name(alloc, &mut self.program.names, name)?;
        self.members.push(ty)?;
        self.member_names.push(name)?;
        Ok(())
    }

    // A struct of the members that have come.
    fn end_struct(&mut self, alloc: Global, name: &str) -> Result<(), Refusal> {
        let members = std::mem::replace(&mut self.members, Vec::new(alloc));
        let names = std::mem::replace(&mut self.member_names, Vec::new(alloc));
        add_struct(&mut self.program.types, members)?;
        self.program.names.members.push(names)?;
        self.structs.push(String::from_str(alloc, name)?)?;
        Ok(())
    }

    // ---- functions

    fn function(&mut self, alloc: Global, word: &str) -> Result<(), Refusal> {
        self.end_function()?;
        let name = add_name(alloc, &mut self.program.names, word)?;
        self.functions.push(String::from_str(alloc, word)?)?;
        self.draft = Some(Draft::new(alloc, &mut self.program.types, name)?);
        Ok(())
    }

    // Adds the function that was begun, if there is one.
    fn end_function(&mut self) -> Result<(), Refusal> {
        if let Some(draft) = self.draft.take() {
            let (function, named) = draft.finish()?;
            self.program.functions.push(function)?;
            self.named.push(named)?;
        }
        Ok(())
    }

    fn local(
        &mut self,
        alloc: Global,
        sort: Sort,
        name: &str,
        words: &[&str],
    ) -> Result<(), Refusal> {
        let ty = type_of(&mut self.program.types, &self.structs, words)?;
        let program = &mut self.program;
        match &mut self.draft {
            None => Err(Refusal::NotBegun),
            Some(draft) => draft.declare(alloc, &mut program.names, &program.types, sort, name, ty),
        }
    }

    fn promise(&mut self, alloc: Global, words: &[&str]) -> Result<(), Refusal> {
        match &mut self.draft {
            None => Err(Refusal::NotBegun),
            Some(draft) => draft.promise(alloc, words),
        }
    }

    /// The number of the function that has begun last.
    pub fn last_function(&self) -> Result<u32, Refusal> {
        match self.functions.len().checked_sub(1) {
            None => Err(Refusal::NotBegun),
            Some(last) => index(last),
        }
    }

    /// The number of the function with this name.
    pub fn function_named(&self, word: &str) -> Result<u32, Refusal> {
        position(&self.functions, word)
    }

    /// The program.
    pub fn into_program(self) -> CoreProgram {
        let Written {
            program,
            named: _named,
            functions: _functions,
            structs: _structs,
            members: _members,
            member_names: _member_names,
            draft: _draft,
        } = self;
        program
    }

    /// Ends the last function.
    pub fn finish(&mut self) -> Result<(), Refusal> {
        if !self.members.is_empty() {
            return Err(Refusal::NotBegun);
        }
        self.end_function()
    }
}
