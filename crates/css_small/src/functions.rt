//! Functions, and main behind them.
ghost use Rattle.std.specs.Prelude.{◌≡◌, ℕ, List, [], ◌∷◌, ◌++◌, map, ◌↔◌, IsTrue, Some, None, option_map, IfOk, IfErr, IfSome, IfNone, IsErrOf, OnOk};
ghost use Rattle.css_base.specs.Tokens.{Word, Punctuator, kind_of, lexemes};
ghost use Rattle.css_tree.specs.Syntax as syntax;
ghost use Rattle.css_tree.specs.Shapes as shapes;
ghost use Rattle.css_small.specs.Tree.{Program as Whole, function, program};
ghost use Rattle.css_small.specs.Trees as spec;
ghost use Rattle.css_small.specs.Trees.{program_of, program_behind, function_behind, main_behind, is_void, is_void_alone, pointer_of, is_empty, is_star, is_task_of, task_of, kinds_of};

use crate::bodies::{body_of, is_int};
use crate::name_set::NameSet;
use crate::names::{Names, define};
use crate::tree::{Function, Program};
use crate::tree_fault::TreeFault;
use css_base::{Line, Token, TokenKind};
use css_tree::{Block, Item, Mark, Parameters, Specifier, Star, Tree};
use std::alloc::Global;

/// The program that this tree is. `NotSmall` comes only where it is none. It recurses as deep as the tree has levels.
pub(crate) fn program_of(alloc: Global, tree: &Tree) -> Result<Program, TreeFault>
    ensures ok { IfOk result (λ p. program_of (shapes.tree tree.now) ≡ Some (program p)) }
    ensures not_small { IsErrOf result TreeFault.NotSmall → program_of (shapes.tree tree.now) ≡ None }
{
    let Some((last, others)) = tree.items.as_slice().split_last() else {
        return Err(TreeFault::NotSmall);
    };
    let mut names = NameSet::new(alloc);
    let functions = functions_of(alloc, &mut names, others)?;
    let main = main_behind(alloc, names, last)?;
    Ok(Program { functions, main })
}

/// The functions that these items are, behind those before, where main is the last item. `NotSmall` comes only where one is none.
fn functions_of(
    alloc: Global,
    names: &mut NameSet,
    items: &[Item],
) -> Result<Vec<Function>, TreeFault>
    ensures ok { IfOk result (λ all. (last : syntax.Item) → program_behind names.old (map shapes.item items.now ++ last ∷ [])
        ≡ option_map {T = Whole} {U = Whole} (λ p. record p { functions = map function all.items ++ p.functions }) (program_behind names.new (last ∷ []))) }
    ensures not_small { IsErrOf result TreeFault.NotSmall
        → (last : syntax.Item) → program_behind names.old (map shapes.item items.now ++ last ∷ []) ≡ None }
{
    let mut all = Vec::new(alloc);
    for item in items {
        add(&mut all, function_behind(alloc, names, item)?)?;
    }
    Ok(all)
}

/// Puts a function behind others. The only error is `NoMemory`.
fn add(all: &mut Vec<Function>, next: Function) -> Result<(), TreeFault>
    ensures ok { OnOk result (all.new.items ≡ all.old.items ++ next ∷ []) }
    ensures no_memory { IfErr result (λ e. e ≡ TreeFault.NoMemory) }
{
    match all.push(next) {
        Ok(()) => Ok(()),
        Err(_) => Err(TreeFault::NoMemory),
    }
}

/// The function that this item is, which is then among those before. `NotSmall` comes only where it is none.
fn function_behind(alloc: Global, before: &mut NameSet, item: &Item) -> Result<Function, TreeFault>
    ensures ok { IfOk result (λ f. (t : syntax.Function) × (shapes.item item.now ≡ syntax.Define t)
        × (function_behind before.old t ≡ Some (function f)) × (before.new ≡ before.old ++ t.name ∷ [])) }
    ensures not_small { IsErrOf result TreeFault.NotSmall → (t : syntax.Function)
        → shapes.item item.now ≡ syntax.Define t → function_behind before.old t ≡ None }
{
    let Item::Function {
        directive,
        line,
        end,
        specifiers,
        stars,
        name,
        parameters,
        body,
    } = item
    else {
        return Err(TreeFault::NotSmall);
    };
    if !is_void(specifiers.as_slice()) || !is_without_stars(stars.as_slice()) {
        return Err(TreeFault::NotSmall);
    }
    let Some(parameter) = pointer_of(parameters) else {
        return Err(TreeFault::NotSmall);
    };
    let Some(is_task) = is_task_of(parameter, directive) else {
        return Err(TreeFault::NotSmall);
    };
    let name = name.as_slice();
    define(alloc, before, name)?;
    let names = Names::in_function(alloc, parameter)?;
    with_body(alloc, is_task, *line, *end, 1, names, body)
}

/// Main, which this item is, behind these functions. `NotSmall` comes only where it is none.
fn main_behind(alloc: Global, functions: NameSet, item: &Item) -> Result<Function, TreeFault>
    ensures ok { IfOk result (λ f. (t : syntax.Function) × (shapes.item item.now ≡ syntax.Define t)
        × (main_behind functions t ≡ Some (function f))) }
    ensures not_small { IsErrOf result TreeFault.NotSmall → (t : syntax.Function)
        → shapes.item item.now ≡ syntax.Define t → main_behind functions t ≡ None }
{
    let Item::Function {
        directive,
        line,
        end,
        specifiers,
        stars,
        name,
        parameters,
        body,
    } = item
    else {
        return Err(TreeFault::NotSmall);
    };
    if directive.is_some()
        || !is_int(specifiers.as_slice())
        || !is_without_stars(stars.as_slice())
        || name.as_slice() != b"main".as_slice()
        || !is_void_alone(parameters)
    {
        return Err(TreeFault::NotSmall);
    }
    let names = Names::in_main(alloc, functions);
    with_body(alloc, false, *line, *end, 0, names, body)
}

/// The function with these lines of its first and last token and this body, in which these may be named at the front. `NotSmall`
/// comes only where it is none.
fn with_body(
    alloc: Global,
    is_task: bool,
    line: Line,
    end: Line,
    parameters: u32,
    names: Names,
    body: &Option<Block>,
) -> Result<Function, TreeFault>
    requires { parameters ≡ names.parameters }
    ensures ok { IfOk result
        (λ f. spec.body_of is_task line end names (option_map shapes.body body.now) ≡ Some (function f)) }
    ensures not_small { IsErrOf result TreeFault.NotSmall
        → spec.body_of is_task line end names (option_map shapes.body body.now) ≡ None }
{
    let Some(block) = body else {
        return Err(TreeFault::NotSmall);
    };
    let body = body_of(alloc, names, block)?;
    Ok(Function {
        is_task,
        line,
        end,
        parameters,
        variables: body.variables,
        body: body.statements,
    })
}

/// Whether there is `void` alone between a function's parentheses.
fn is_void_alone(parameters: &Parameters) -> bool
    ensures { result ≡ is_void_alone (shapes.parameters parameters.now) }
{
    matches!(parameters, Parameters::Void)
}

/// Whether the words are `void` alone.
fn is_void(words: &[Specifier]) -> bool
    ensures { result ≡ is_void words.now }
{
    matches!(words, [Specifier::Void])
}

/// The name of the pointer to an int that is a function's parameter, alone.
fn pointer_of(parameters: &Parameters) -> Option<&[u8]>
    ensures some { IfSome result (λ name. pointer_of (shapes.parameters parameters.now) ≡ Some name.now) }
    ensures none { IfNone result (pointer_of (shapes.parameters parameters.now) ≡ None) }
{
    let Parameters::List(all) = parameters else {
        return None;
    };
    let [only] = all.as_slice() else {
        return None;
    };
    if !is_int(only.specifiers.as_slice())
        || !is_star(only.stars.as_slice())
        || !only.dimensions.is_empty()
    {
        return None;
    }
    match &only.name {
        Some(name) => Some(name.as_slice()),
        None => None,
    }
}

/// Whether there are no stars.
fn is_without_stars(stars: &[Star]) -> bool
    ensures { result ≡ is_empty (shapes.stars stars.now) }
{
    matches!(stars, [])
}

/// Whether there is one star, with no word behind it.
fn is_star(stars: &[Star]) -> bool
    ensures { result ≡ is_star (shapes.stars stars.now) }
{
    match stars {
        [only] => only.qualifiers.is_empty(),
        _ => false,
    }
}

/// Whether a function with this parameter is a task.
fn is_task_of(parameter: &[u8], directive: &Option<Mark>) -> Option<bool>
    ensures { result ≡ is_task_of parameter.now (option_map shapes.mark directive.now) }
{
    let Some(mark) = directive else {
        return Some(false);
    };
    match task_of(mark.words.as_slice()) {
        Some(named) if named == parameter => Some(true),
        _ => None,
    }
}

/// The parameter that a task's directive names.
fn task_of(words: &[Token]) -> Option<&[u8]>
    ensures some { IfSome result (λ name. task_of (kinds_of (shapes.in_row (lexemes words.now))) ≡ Some name.now) }
    ensures none { IfNone result (task_of (kinds_of (shapes.in_row (lexemes words.now))) ≡ None) }
{
    if words.len() != 5 {
        return None;
    }
    let [first, second, opens, parameter, closes] = words else {
        return None;
    };
    if is_word(first, b"task")
        && is_word(second, b"inout")
        && is_mark(opens, b"(")
        && is_mark(closes, b")")
    {
        word_of(parameter)
    } else {
        None
    }
}

/// Whether this is the word.
fn is_word(token: &Token, word: &[u8]) -> bool
    ensures { IsTrue result ↔ (kind_of token.now.kind ≡ Word word.now) }
{
    match &token.kind {
        TokenKind::Word(bytes) => bytes.as_slice() == word,
        _ => false,
    }
}

/// Whether this is the punctuator.
fn is_mark(token: &Token, mark: &[u8]) -> bool
    ensures { IsTrue result ↔ (kind_of token.now.kind ≡ Punctuator mark.now) }
{
    match &token.kind {
        TokenKind::Punctuator(bytes) => bytes.as_slice() == mark,
        _ => false,
    }
}

/// The bytes of a word.
fn word_of(token: &Token) -> Option<&[u8]>
    ensures some { IfSome result (λ word. kind_of token.now.kind ≡ Word word.now) }
    ensures none { IfNone result ((word : List ℕ) → kind_of token.now.kind ≡ Word word → ⊥) }
{
    match &token.kind {
        TokenKind::Word(bytes) => Some(bytes.as_slice()),
        _ => None,
    }
}
