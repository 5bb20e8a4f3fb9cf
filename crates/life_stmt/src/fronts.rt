// What the next tokens are, where that decides how to read on.
ghost use Rattle.std.specs.Prelude.{◌≡◌, ◌∷◌, []};
ghost use Rattle.life_stmt.specs.Elses as elses;
ghost use Rattle.life_expr.specs.Heads as heads;
ghost use Rattle.life_expr.specs.Heads.{quoted_kind};
ghost use Rattle.life_expr.specs.Read as spec;
ghost use Rattle.life_expr.specs.Readers as readers;
ghost use Rattle.life_stmt.specs.Simples as simples;
ghost use Rattle.life_stmt.specs.Statements as statements;
ghost use Rattle.life_tree.specs.Rules as rules;
ghost use Rattle.life_tree.specs.declared.fixed.TheConstants as fixed;

use life_expr::{starts, starts_name, starts_primary};
use life_tree::{TokenKey, TreeToken, fixed};

/// Whether a type without `const` begins here.
pub fn starts_type(tokens: &[TreeToken]) -> bool
    ensures { result ≡ spec.starts heads.type_heads tokens.now }
{
    let [token, ..] = tokens else {
        return false;
    };
    match token.key {
        TokenKey::Fixed(found) => {
            found == fixed::BOOL
                || found == fixed::CHAR
                || found == fixed::INT
                || found == fixed::LONG
                || found == fixed::STD
                || found == fixed::GSL
        }
        TokenKey::Name(_) => true,
        _ => false,
    }
}

/// Whether an assignment, a step or a call begins here.
pub fn starts_simple(tokens: &[TreeToken]) -> bool
    ensures { result ≡ spec.starts heads.simple_heads tokens.now }
{
    starts(tokens, fixed::PLUS_PLUS)
        || starts(tokens, fixed::MINUS_MINUS)
        || starts(tokens, fixed::STAR)
        || starts_primary(tokens)
}

/// Whether an assignment goes on here.
pub fn starts_assignment(tokens: &[TreeToken]) -> bool
    ensures { result ≡ spec.starts simples.assignment_heads tokens.now }
{
    let [token, ..] = tokens else {
        return false;
    };
    match token.key {
        TokenKey::Fixed(found) => {
            found == fixed::ASSIGN
                || found == fixed::PLUS_ASSIGN
                || found == fixed::MINUS_ASSIGN
                || found == fixed::STAR_ASSIGN
                || found == fixed::SLASH_ASSIGN
                || found == fixed::PERCENT_ASSIGN
        }
        _ => false,
    }
}

/// Whether `std`, `::` and this word are next.
pub fn starts_std(tokens: &[TreeToken], number: u16) -> bool
    ensures { result ≡ readers.begins_as (readers.std_front (quoted_kind number ∷ []) ∷ []) tokens.now }
{
    match tokens {
        [namespace, scope, rest @ ..] => match namespace.key {
            TokenKey::Fixed(word) => match scope.key {
                TokenKey::Fixed(mark) => {
                    word == fixed::STD && mark == fixed::SCOPE && starts(rest, number)
                }
                _ => false,
            },
            _ => false,
        },
        _ => false,
    }
}

/// Whether a name goes on as a type: `*`, `&` or a name stands behind it.
fn goes_on_as_type(tokens: &[TreeToken]) -> bool
    ensures { result ≡ readers.begins_as simples.type_behinds tokens.now }
{
    starts(tokens, fixed::STAR) || starts(tokens, fixed::AMPERSAND) || starts_name(tokens)
}

/// Whether what stands behind `std` is a type and no operand.
fn is_std_type(tokens: &[TreeToken]) -> bool
    ensures { result ≡ readers.begins_as simples.std_types tokens.now }
{
    let [scope, word, rest @ ..] = tokens else {
        return false;
    };
    let TokenKey::Fixed(mark) = scope.key else {
        return false;
    };
    let TokenKey::Fixed(found) = word.key else {
        return false;
    };
    mark == fixed::SCOPE
        && (found == fixed::SIZE_T
            || found == fixed::STRING_VIEW
            || found == fixed::VECTOR
            || found == fixed::UNIQUE_PTR
            || (found == fixed::STRING && goes_on_as_type(rest)))
}

/// Whether a declaration begins here.
pub fn starts_declaration(tokens: &[TreeToken]) -> bool
    ensures { result ≡ readers.begins_as readers.declaration_fronts tokens.now }
{
    let [token, rest @ ..] = tokens else {
        return false;
    };
    match token.key {
        TokenKey::Fixed(found) => {
            found == fixed::CONST
                || found == fixed::BOOL
                || found == fixed::CHAR
                || found == fixed::INT
                || found == fixed::LONG
                || found == fixed::AUTO
                || found == fixed::GSL
                || (found == fixed::STD && is_std_type(rest))
        }
        TokenKey::Name(_) => goes_on_as_type(rest),
        _ => false,
    }
}

/// Whether a step stands here.
pub fn starts_step(tokens: &[TreeToken]) -> bool
    ensures { result ≡ spec.starts (quoted_kind fixed.PLUS_PLUS ∷ quoted_kind fixed.MINUS_MINUS ∷ []) tokens.now }
{
    starts(tokens, fixed::PLUS_PLUS) || starts(tokens, fixed::MINUS_MINUS)
}

/// Whether a member of a struct begins here.
pub fn starts_member(tokens: &[TreeToken]) -> bool
    ensures { result ≡ spec.starts (heads.heads_of rules.member) tokens.now }
{
    starts(tokens, fixed::CONST) || starts_type(tokens)
}

/// Whether a parameter begins here.
pub fn starts_parameter(tokens: &[TreeToken]) -> bool
    ensures { result ≡ spec.starts (heads.heads_of rules.parameter) tokens.now }
{
    starts(tokens, fixed::LEFT_BRACKET) || starts(tokens, fixed::CONST) || starts_type(tokens)
}

/// Whether a struct or a function begins here.
pub fn starts_definition(tokens: &[TreeToken]) -> bool
    ensures { result ≡ spec.starts (heads.heads_of rules.definition) tokens.now }
{
    starts(tokens, fixed::STRUCT)
        || starts(tokens, fixed::LEFT_BRACKET)
        || starts(tokens, fixed::VOID)
        || starts(tokens, fixed::CONST)
        || starts_type(tokens)
}

/// Whether a type without `const`, or `auto`, begins here.
fn starts_type_or_auto(tokens: &[TreeToken]) -> bool
    ensures { result ≡ spec.starts statements.type_or_auto_heads tokens.now }
{
    if starts_type(tokens) {
        return true;
    }
    starts(tokens, fixed::AUTO)
}

/// Whether the type of a declaration begins here.
fn starts_declared(tokens: &[TreeToken]) -> bool
    ensures { result ≡ spec.starts heads.declaration_heads tokens.now }
{
    starts(tokens, fixed::CONST) || starts_type_or_auto(tokens)
}

/// Whether a statement without statements in it begins here.
fn starts_flat(tokens: &[TreeToken]) -> bool
    ensures { result ≡ spec.starts statements.flat_heads tokens.now }
{
    starts(tokens, fixed::BREAK)
        || starts(tokens, fixed::CONTINUE)
        || starts(tokens, fixed::RETURN)
        || starts(tokens, fixed::ASSERT)
        || starts(tokens, fixed::STD)
        || starts_simple(tokens)
}

/// Whether a statement begins here.
fn starts_statement(tokens: &[TreeToken]) -> bool
    ensures { result ≡ spec.starts statements.item_tail_heads tokens.now }
{
    starts(tokens, fixed::IF)
        || starts(tokens, fixed::LEFT_BRACE)
        || starts(tokens, fixed::SEMICOLON)
        || starts(tokens, fixed::WHILE)
        || starts(tokens, fixed::FOR)
        || starts_flat(tokens)
}

/// Whether a declaration or a statement begins here.
pub fn starts_block_item(tokens: &[TreeToken]) -> bool
    ensures { result ≡ spec.starts (heads.heads_of rules.block_item) tokens.now }
{
    if starts_declared(tokens) {
        return true;
    }
    starts_statement(tokens)
}

/// Whether `else` and `if` are next.
pub fn starts_else_if(tokens: &[TreeToken]) -> bool
    ensures { result ≡ readers.begins elses.else_if_kinds tokens.now }
{
    match tokens {
        [word, rest @ ..] => match word.key {
            TokenKey::Fixed(found) => found == fixed::ELSE && starts(rest, fixed::IF),
            _ => false,
        },
        [] => false,
    }
}
