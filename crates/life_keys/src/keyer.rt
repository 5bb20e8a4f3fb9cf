// Keys of tokens, one after the other.
ghost use Rattle.std.specs.Prelude.{◌≡◌, ◌<◌, ◌^◌, map, length, IfOk, OnOk};
ghost use Rattle.life_keys.specs.Keys as spec;
ghost use Rattle.life_keys.specs.Values as values;
ghost use Rattle.life_lex.specs.Answers.{lexeme, NumberFits};

use crate::before::Before;
use crate::literal::{character_value, number_value, text_value};
use crate::words::{keyword_number, mark_number, quoted_name};
use indexmap::IndexSet;
use life_lex::{Token, TokenKind};
use life_tree::TokenKey;
use life_types::{NameId, NoMemory};
use std::alloc::Global;
use std::marker::Model;

/// The number of a keyword that no rule quotes.
const UNUSED: u16 = u16::MAX;

/// What was read of a file so far.
#[derive(Drop)]
pub(crate) struct Keyer<'a> {
    alloc: Global,
    before: Before,
    names: IndexSet<&'a [u8]>,
    texts: IndexSet<Vec<u8>>,
}

impl<'a> Model for Keyer<'a> {
    ghost use Rattle.std.specs.Prelude.{map};
    ghost use Rattle.life_keys.specs.Keys.{Tables};

    ghost Value = { Tables };

    ghost view = { λ keyer. record {
      before = keyer.before;
      names = map (λ text. text.now) keyer.names.keys;
      texts = map (λ text. text.items) keyer.texts.keys;
    } };
}

impl<'a> Keyer<'a> {
    /// Before the first token.
    pub(crate) fn new(alloc: Global) -> Keyer<'a>
        ensures { result ≡ spec.no_tables }
    {
        Keyer {
            alloc,
            before: Before::Other,
            names: IndexSet::new(alloc),
            texts: IndexSet::new(alloc),
        }
    }

    /// The key of a name.
    fn name(&mut self, text: &'a [u8]) -> Result<TokenKey, NoMemory>
        requires { length self.old.names < 2 ^ 32 }
        ensures key { IfOk result (λ key. key ≡ spec.name_key self.old text.now (spec.quoted_name self.old.before text.now)) }
        ensures names { OnOk result (self.new.names ≡ spec.with_name self.old.names text.now (spec.quoted_name self.old.before text.now)) }
        ensures texts { OnOk result (self.new.texts ≡ self.old.texts) }
        ensures before { OnOk result (self.new.before ≡ self.old.before) }
    {
        match quoted_name(self.before, text) {
            Some(number) => Ok(TokenKey::Fixed(number)),
            None => {
                let (number, _) = self.names.insert_full(text)?;
                Ok(TokenKey::Name(NameId(number as u32)))
            }
        }
    }

    /// The key of a string literal.
    fn text(&mut self, text: &[u8]) -> Result<TokenKey, NoMemory>
        requires { length self.old.texts < 2 ^ 32 }
        ensures key { IfOk result (λ key. key ≡ spec.text_key self.old text.now) }
        ensures texts { OnOk result (self.new.texts ≡ spec.with_text self.old.texts (values.text_value text.now)) }
        ensures names { OnOk result (self.new.names ≡ self.old.names) }
        ensures before { OnOk result (self.new.before ≡ self.old.before) }
    {
        let value = text_value(self.alloc, text)?;
        let (number, _) = self.texts.insert_full(value)?;
        Ok(TokenKey::Text(number as u32))
    }

    /// The key of the next token.
    pub(crate) fn key(&mut self, token: &Token<'a>) -> Result<TokenKey, NoMemory>
        requires number { NumberFits (lexeme token.now) }
        requires names { length self.old.names < 2 ^ 32 }
        requires texts { length self.old.texts < 2 ^ 32 }
        ensures key { IfOk result (λ key. key ≡ spec.key_of self.old token.now.kind token.now.text.now) }
        ensures tables { OnOk result (self.new ≡ spec.tables_with self.old token.now.kind token.now.text.now) }
    {
        let key = match token.kind {
            TokenKind::Keyword => TokenKey::Fixed(keyword_number(token.text).unwrap_or(UNUSED)),
            TokenKind::Mark => TokenKey::Fixed(mark_number(token.text).unwrap_or(UNUSED)),
            TokenKind::Number => TokenKey::Number(number_value(token.text)),
            TokenKind::Char => TokenKey::Char(character_value(token.text)),
            TokenKind::Text => self.text(token.text)?,
            TokenKind::Name => self.name(token.text)?,
        };
        self.before = self.before.next(key);
        Ok(key)
    }

    /// The tables, behind the last token.
    pub(crate) fn finish(self) -> Result<(Vec<Vec<u8>>, Vec<Vec<u8>>), NoMemory>
        ensures names { IfOk result (λ r. map (λ name. name.items) r.0.items ≡ self.entry.names) }
        ensures texts { IfOk result (λ r. map (λ text. text.items) r.1.items ≡ self.entry.texts) }
    {
        let names = copied_names(self.alloc, &self.names)?;
        let texts = copied_texts(self.alloc, &self.texts)?;
        Ok((names, texts))
    }
}

/// The bytes, owned.
fn owned(alloc: Global, bytes: &[u8]) -> Result<Vec<u8>, NoMemory>
    ensures { IfOk result (λ text. text.items ≡ bytes.now) }
{
    Ok(bytes.to_vec(alloc)?)
}

/// The names of a table, in their order.
fn copied_names(alloc: Global, table: &IndexSet<&[u8]>) -> Result<Vec<Vec<u8>>, NoMemory>
    ensures { IfOk result (λ list. map (λ text. text.items) list.items ≡ map (λ text. text.now) table.now.keys) }
{
    let mut list = Vec::new(alloc);
    for number in 0..table.len() {
        list.push(owned(alloc, &table[number])?)?;
    }
    Ok(list)
}

/// The texts of a table, in their order.
fn copied_texts(alloc: Global, table: &IndexSet<Vec<u8>>) -> Result<Vec<Vec<u8>>, NoMemory>
    ensures { IfOk result (λ list. map (λ text. text.items) list.items ≡ map (λ text. text.items) table.now.keys) }
{
    let mut list = Vec::new(alloc);
    for number in 0..table.len() {
        list.push(owned(alloc, &table[number])?)?;
    }
    Ok(list)
}
