//! Declarations of channels and processes.

ghost use Rattle.std.specs.Prelude.{◌≡◌, ◌≤◌, ◌<◌, ◌+◌, ◌++◌, ◌∷◌, ℕ, List, [], length, map, is_some, IfOk, IfErr, IfSome};
ghost use Rattle.kahn_syntax.specs.{declared.parser.cursor.Stop.TheVariants.NoMemory, inner.Reads.Reads, inner.Reads.IsShallow, inner.Reads.ParsesPart, inner.Reads.DeclarationsSpan};
ghost use Rattle.kahn_syntax.specs.Texts.{terminals, AreProper, process_tree, declaration_tree, lexemes, IsPast, Takes, DeclarationSpans, ProcessSpans, parameter_with, variable_with};
ghost use Rattle.kahn_syntax.specs.Grammar.{kind_terminal, role_words, taking_words, TakesAll, Head, Parameters, ParameterGroup, Variables, group};
ghost use Rattle.kahn_syntax.specs.inner.Machine.{DeclarationsPart, DeclarationPart, ProcessPart, RolePart, GroupsPart, GroupPart, TakingPart, VariablesPart, a_kind, leads, starts, head_parts, declaration_rules};

use crate::lexeme::{Class, Keyword, Lexeme, Sign};
use crate::parser::cursor::{Read, Stop, expect, next, past, read_name, read_names};
use crate::parser::statement::read_statements;
use kahn_streams::{
    Declaration, Direction, Kind, Name, Parameter, Process, Role, Taking, Variable,
};
use std::alloc::Global;

fn next_kind(input: &[Lexeme]) -> Option<(Kind, &[Lexeme])>
    ensures first { IfSome result (λ r. (text : List ℕ) → terminals text input.now ≡ kind_terminal r.0 ∷ terminals text r.1.now) }
    ensures passed { IfSome result (λ r. IsPast input.now r.1.now) }
    ensures shorter { IfSome result (λ r. length input.now ≡ length r.1.now + 1) }
    ensures proper { IfSome result (λ r. (text : List ℕ) → AreProper text input.now → AreProper text r.1.now) }
    ensures leads { (text : List ℕ) → leads a_kind (terminals text input.now) ≡ is_some result }
{
    match next(input)? {
        (Class::Word(Keyword::Integer), rest) => Some((Kind::Integer, rest)),
        (Class::Word(Keyword::Logical), rest) => Some((Kind::Logical, rest)),
        _ => None,
    }
}

/// Reads the declarations that come first, each with the semicolon after it: none or more.
pub fn read_declarations<'t>(
    alloc: Global,
    text: &str,
    input: &'t [Lexeme],
) -> Read<'t, Vec<Declaration>>
    requires proper { AreProper text.now input.now }
    ensures { ParsesPart result text.now (DeclarationsPart ∷ []) (λ r. DeclarationsSpan text.now r.0.items) input.now (λ r. r.1.now) }
{
    let mut declarations = Vec::new(alloc);
    let mut rest = input;
    'declarations: while begins_declaration(rest) {
        let (declaration, after) = read_declaration(alloc, text, rest)?;
        declarations.push(declaration)?;
        let left = expect(after, Class::Sign(Sign::Semicolon))?;
        rest = left;
    }
    Ok((declarations, rest))
}

// Whether a declaration comes first: a name begins an instance.
fn begins_declaration(input: &[Lexeme]) -> bool
    ensures { (text : List ℕ) → starts declaration_rules (terminals text input.now) ≡ result }
{
    matches!(
        next(input),
        Some((
            Class::Word(Keyword::Integer | Keyword::Logical | Keyword::Process),
            _
        ))
    )
}

fn read_declaration<'t>(alloc: Global, text: &str, input: &'t [Lexeme]) -> Read<'t, Declaration>
    requires proper { AreProper text.now input.now }
    ensures { ParsesPart result text.now (DeclarationPart ∷ []) (λ r xs l. IsShallow (declaration_tree r.0) × DeclarationSpans text.now r.0 xs l) input.now (λ r. r.1.now) }
{
    match next_kind(input) {
        Some((kind, rest)) => {
            let (role, rest) = read_role(rest);
            let rest = expect(rest, Class::Word(Keyword::Channel))?;
            let (names, rest) = read_names(alloc, text, rest)?;
            Ok((Declaration::Channels(kind, role, names), rest))
        }
        None => {
            let (process, rest) = read_process(alloc, text, input)?;
            Ok((Declaration::Process(process), rest))
        }
    }
}

// Reads the role before `channel`, if there is one.
fn read_role(input: &[Lexeme]) -> (Role, &[Lexeme])
    ensures spans { (text : List ℕ) → TakesAll (lexemes text) (role_words result.0 []) input.now result.1.now }
    ensures proper { (text : List ℕ) → AreProper text input.now → AreProper text result.1.now }
    ensures reads { (text : List ℕ) → Reads text 0 (RolePart ∷ []) input.now result.1.now }
    ensures shorter { length result.1.now ≤ length input.now }
{
    match next(input) {
        Some((Class::Word(Keyword::Input), rest)) => (Role::Input, rest),
        Some((Class::Word(Keyword::Output), rest)) => (Role::Output, rest),
        _ => (Role::Inner, input),
    }
}

fn read_process<'t>(alloc: Global, text: &str, input: &'t [Lexeme]) -> Read<'t, Process>
    requires proper { AreProper text.now input.now }
    ensures { ParsesPart result text.now (ProcessPart ∷ []) (λ r xs l. IsShallow (process_tree r.0) × ProcessSpans text.now r.0 xs l) input.now (λ r. r.1.now) }
{
    let rest = expect(input, Class::Word(Keyword::Process))?;
    let (name, rest) = read_name(alloc, text, rest)?;
    let (parameters, rest) = read_head(alloc, text, rest)?;
    let (variables, rest) = read_variables(alloc, text, rest)?;
    let (statements, rest) = read_statements(alloc, text, rest, 0)?;
    let rest = expect(rest, Class::Word(Keyword::End))?;
    let process = Process {
        name,
        parameters,
        variables,
        statements,
    };
    Ok((process, rest))
}

// Reads the parameters of a process in their brackets, and what is between them and its body.
fn read_head<'t>(alloc: Global, text: &str, input: &'t [Lexeme]) -> Read<'t, Vec<Parameter>>
    requires proper { AreProper text.now input.now }
    ensures { ParsesPart result text.now head_parts (λ r. Head (lexemes text.now) parameter_with r.0.items) input.now (λ r. r.1.now) }
{
    let rest = expect(input, Class::Sign(Sign::Open))?;
    let (parameters, rest) = read_parameters(alloc, text, rest)?;
    let rest = expect(rest, Class::Sign(Sign::Close))?;
    let rest = expect(rest, Class::Sign(Sign::Semicolon))?;
    let rest = expect(rest, Class::Word(Keyword::Begin))?;
    Ok((parameters, rest))
}

// Reads the groups of parameters, with semicolons between: none or more.
fn read_parameters<'t>(alloc: Global, text: &str, input: &'t [Lexeme]) -> Read<'t, Vec<Parameter>>
    requires proper { AreProper text.now input.now }
    ensures { ParsesPart result text.now (GroupsPart ∷ []) (λ r. Parameters (lexemes text.now) parameter_with r.0.items) input.now (λ r. r.1.now) }
{
    let mut parameters = Vec::new(alloc);
    if next_kind(input).is_none() {
        return Ok((parameters, input));
    }
    let mut rest = input;
    'groups: loop {
        let (group, after) = read_group(alloc, text, rest)?;
        add_parameters(&mut parameters, group.0, group.1)?;
        let Some(further) = past(after, Class::Sign(Sign::Semicolon)) else {
            return Ok((parameters, after));
        };
        rest = further;
    }
}

// Reads names of parameters that take the same.
fn read_group<'t>(alloc: Global, text: &str, input: &'t [Lexeme]) -> Read<'t, (Taking, Vec<Name>)>
    requires proper { AreProper text.now input.now }
    ensures { ParsesPart result text.now (GroupPart ∷ []) (λ r. ParameterGroup (lexemes text.now) (group r.0.0 r.0.1.items)) input.now (λ r. r.1.now) }
{
    let Some((kind, rest)) = next_kind(input) else {
        return Err(Stop::Refused(false, input.len()));
    };
    let (taking, rest) = read_taking(kind, rest);
    let (names, rest) = read_names(alloc, text, rest)?;
    Ok(((taking, names), rest))
}

fn read_taking(kind: Kind, input: &[Lexeme]) -> (Taking, &[Lexeme])
    ensures spans { (text : List ℕ) (xs : _) → Takes text (kind_terminal kind) xs input.now → TakesAll (lexemes text) (taking_words result.0 []) xs result.1.now }
    ensures proper { (text : List ℕ) → AreProper text input.now → AreProper text result.1.now }
    ensures reads { (text : List ℕ) → Reads text 0 (TakingPart ∷ []) input.now result.1.now }
    ensures shorter { length result.1.now ≤ length input.now }
{
    match next(input) {
        Some((Class::Word(Keyword::In), rest)) => (Taking::Channel(Direction::In, kind), rest),
        Some((Class::Word(Keyword::Out), rest)) => (Taking::Channel(Direction::Out, kind), rest),
        _ => (Taking::Value(kind), input),
    }
}

fn add_parameters(
    parameters: &mut Vec<Parameter>,
    taking: Taking,
    names: Vec<Name>,
) -> Result<(), Stop>
    ensures items { IfOk result (λ _. parameters.new.items ≡ parameters.old.items ++ map (parameter_with taking) names.items) }
    ensures stop { IfErr result (λ e. e ≡ NoMemory) }
{
    for name in names {
        parameters.push(Parameter { taking, name })?;
    }
    Ok(())
}

fn read_variables<'t>(alloc: Global, text: &str, input: &'t [Lexeme]) -> Read<'t, Vec<Variable>>
    requires proper { AreProper text.now input.now }
    ensures { ParsesPart result text.now (VariablesPart ∷ []) (λ r. Variables (lexemes text.now) variable_with r.0.items) input.now (λ r. r.1.now) }
{
    let mut variables = Vec::new(alloc);
    let mut rest = input;
    'variables: while let Some((kind, after)) = next_kind(rest) {
        let (names, after) = read_names(alloc, text, after)?;
        let after = expect(after, Class::Sign(Sign::Semicolon))?;
        add_variables(&mut variables, kind, names)?;
        rest = after;
    }
    Ok((variables, rest))
}

fn add_variables(variables: &mut Vec<Variable>, kind: Kind, names: Vec<Name>) -> Result<(), Stop>
    ensures items { IfOk result (λ _. variables.new.items ≡ variables.old.items ++ map (variable_with kind) names.items) }
    ensures stop { IfErr result (λ e. e ≡ NoMemory) }
{
    for name in names {
        variables.push(Variable { kind, name })?;
    }
    Ok(())
}
