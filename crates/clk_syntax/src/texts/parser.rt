//! The statements of a text, by recursive descent over its tokens. Each function reads as the diagram of the text says, and stops at
//! the first token that can't stand where it does.

ghost use Rattle.std.specs.Prelude.{◌≡◌, ◌<◌, List, [], length, ◌∷◌, ◌++◌, ◌⊎◌, map, true, false, Some, None, MatchOption, IfOk, IfErr, OnOk};
ghost use Rattle.std.specs.List.{flat_map, AllByRecursion};
ghost use Rattle.clk_packet.specs.declared.fault.Fault.TheVariants.{Memory, BadText};
ghost use Rattle.clk_syntax.specs.declared.texts.token.Symbol.TheVariants.{Declares, CloseArguments, LeadsTo};
ghost use Rattle.clk_syntax.specs.declared.texts.token.Token.{Token};
ghost use Rattle.clk_syntax.specs.Diagram.{start, further_name, declares, class, opened, argument, closed, leads_to, next_name, output_opened, input_opened, wrong_from};
ghost use Rattle.clk_syntax.specs.Grammar.{Statement, IsText, IsName, IsWord, IsPort, mark, is_word, listed, written_port};
ghost use Rattle.clk_syntax.specs.Source.{declared_in, connected_in, kept};
ghost use Rattle.clk_syntax.specs.Within.{AreWithin, IsDeclaredWithin, IsConnectedWithin};
ghost use Rattle.clk_syntax.specs.Faults.{offset_of};
ghost use Rattle.clk_syntax.specs.inside.Parse.{BeginsWith, IsPast, begins_word, goes_on, Reads, Stops, NumberRead, Listed, ArgumentsRead, DeclarationRead, HopRead, HopsRead, StatementRead, EndRead, EndedRead};

use crate::texts::statements::{Connection, Declaration, Statements};
use crate::texts::token::{Symbol, Token};
use clk_packet::Fault;
use smallvec::SmallVec;
use std::alloc::Global;

/// The fault of a text of so many bytes whose tokens are wrong from these on.
fn bad(tokens: &[Token], end: u32) -> Fault
    ensures { result ≡ BadText (offset_of end tokens.now) }
{
    match tokens {
        [] => Fault::BadText { offset: end },
        [token, ..] => Fault::BadText {
            offset: token.place,
        },
    }
}

/// A token of this symbol, and those after it. Fault 2 if the first token isn't of this symbol.
fn one<'a>(symbol: Symbol, tokens: &'a [Token], end: u32) -> Result<(Token, &'a [Token]), Fault>
    ensures read { IfOk result (λ r. (tokens.now ≡ r.0 ∷ r.1.now) × (r.0.symbol ≡ symbol)) }
    ensures stop { IfErr result (λ fault. (fault ≡ BadText (offset_of end tokens.now)) × ¬ (BeginsWith symbol tokens.now)) }
{
    if let [token, rest @ ..] = tokens {
        if token.symbol == symbol {
            return Ok((*token, rest));
        }
    }
    Err(bad(tokens, end))
}

/// What comes after a token of this symbol, if some tokens begin with one.
fn past<'a>(symbol: Symbol, tokens: &'a [Token]) -> Option<&'a [Token]>
    ensures { MatchOption result (¬ (BeginsWith symbol tokens.now)) (λ rest. IsPast symbol tokens.now rest.now) }
{
    if let [token, rest @ ..] = tokens {
        if token.symbol == symbol {
            return Some(rest);
        }
    }
    None
}

/// Whether a token of this symbol is a word.
fn is_word(symbol: Symbol) -> bool
    ensures { result ≡ is_word symbol }
{
    matches!(symbol, Symbol::Name | Symbol::Number | Symbol::OtherWord)
}

/// A word, and the tokens after it. Fault 2 if the first token is no word.
fn any_word<'a>(tokens: &'a [Token], end: u32) -> Result<(Token, &'a [Token]), Fault>
    ensures read { IfOk result (λ r. (tokens.now ≡ r.0 ∷ r.1.now) × IsWord r.0) }
    ensures stop { IfErr result (λ fault. (fault ≡ BadText (offset_of end tokens.now)) × (begins_word tokens.now ≡ false)) }
{
    if let [token, rest @ ..] = tokens {
        if is_word(token.symbol) {
            return Ok((*token, rest));
        }
    }
    Err(bad(tokens, end))
}

/// The number of a port and the tokens behind the bracket that closes it. The bracket that opens it comes right before `tokens`.
fn port_number<'a>(tokens: &'a [Token], end: u32) -> Result<(Token, &'a [Token]), Fault>
    ensures read { IfOk result (λ r. NumberRead tokens.now r.0 r.1.now) }
    ensures output { IfErr result (Stops end output_opened tokens.now) }
    ensures input { IfErr result (Stops end input_opened tokens.now) }
{
    let (number, rest) = one(Symbol::Number, tokens, end)?;
    let (_, rest) = one(Symbol::ClosePort, rest, end)?;
    Ok((number, rest))
}

/// Whether some tokens begin with a hop of a chain.
fn goes_on(tokens: &[Token]) -> bool
    ensures { result ≡ goes_on tokens.now }
{
    match tokens {
        [] => false,
        [token, ..] => matches!(token.symbol, Symbol::LeadsTo | Symbol::OpenPort),
    }
}

/// The output port of a hop, if it is written, and the arrow.
fn output<'a>(tokens: &'a [Token], end: u32) -> Result<(Option<Token>, &'a [Token]), Fault>
    requires { goes_on tokens.now ≡ true }
    ensures port { IfOk result (λ r. IsPort r.0) }
    ensures read { IfOk result (λ r. Reads next_name tokens.now (written_port r.0 ++ mark LeadsTo ∷ []) leads_to r.1.now) }
    ensures stop { IfErr result (Stops end next_name tokens.now) }
{
    if let [token, rest @ ..] = tokens {
        if token.symbol == Symbol::OpenPort {
            let (number, rest) = port_number(rest, end)?;
            let (_, rest) = one(Symbol::LeadsTo, rest, end)?;
            return Ok((Some(number), rest));
        }
        return Ok((None, rest));
    }
    Err(bad(tokens, end))
}

/// The input port of a hop, if it is written, and the name.
fn input<'a>(tokens: &'a [Token], end: u32) -> Result<(Option<Token>, Token, &'a [Token]), Fault>
    ensures port { IfOk result (λ r. IsPort r.0) }
    ensures name { IfOk result (λ r. IsName r.1) }
    ensures read { IfOk result (λ r. Reads leads_to tokens.now (written_port r.0 ++ r.1 ∷ []) next_name r.2.now) }
    ensures stop { IfErr result (Stops end leads_to tokens.now) }
{
    if let [token, rest @ ..] = tokens {
        if token.symbol == Symbol::OpenPort {
            let (number, rest) = port_number(rest, end)?;
            let (name, rest) = one(Symbol::Name, rest, end)?;
            return Ok((Some(number), name, rest));
        }
    }
    let (name, rest) = one(Symbol::Name, tokens, end)?;
    Ok((None, name, rest))
}

/// Reads a hop from this name, and keeps its connection. Returns the name that it leads to, and the tokens after it.
fn hop<'a>(
    from: Token,
    tokens: &'a [Token],
    connections: &mut Vec<Connection>,
    end: u32,
) -> Result<(Token, &'a [Token]), Fault>
    requires { goes_on tokens.now ≡ true }
    ensures read { IfOk result (λ r. HopRead from tokens.now connections.old.items connections.new.items r.0 r.1.now) }
    ensures stop { IfErr result (Stops end next_name tokens.now) }
{
    let (output, rest) = output(tokens, end)?;
    let (input, to, rest) = input(rest, end)?;
    connections.push(Connection {
        from,
        output,
        input,
        to,
    })?;
    Ok((to, rest))
}

/// Reads the hops from this name on, as many as there are, and keeps their connections. Returns the tokens after them.
fn hops<'a>(
    first: Token,
    tokens: &'a [Token],
    connections: &mut Vec<Connection>,
    end: u32,
) -> Result<&'a [Token], Fault>
    ensures read { IfOk result (λ rest. HopsRead first tokens.now connections.old.items connections.new.items closed rest.now) }
    ensures stop { IfErr result (Stops end next_name tokens.now) }
{
    let mut from = first;
    let mut left = tokens;
    while goes_on(left) {
        let (to, rest) = hop(from, left, connections, end)?;
        from = to;
        left = rest;
    }
    Ok(left)
}

/// Names, of which the first is given, up to the mark `::`, and what follows it.
fn names<'a>(
    alloc: Global,
    first: Token,
    tokens: &'a [Token],
    end: u32,
) -> Result<(SmallVec<Token, 1>, &'a [Token]), Fault>
    ensures read { IfOk result (λ r. Listed IsName further_name first tokens.now r.0.items (mark Declares ∷ []) declares r.1.now) }
    ensures stop { IfErr result (Stops end further_name tokens.now) }
{
    let mut names = SmallVec::new(alloc);
    names.push(first)?;
    let mut left = tokens;
    while let [token, rest @ ..] = left {
        if token.symbol == Symbol::Declares {
            return Ok((names, rest));
        }
        if token.symbol != Symbol::Comma {
            return Err(bad(left, end));
        }
        let (name, rest) = one(Symbol::Name, rest, end)?;
        names.push(name)?;
        left = rest;
    }
    Err(bad(left, end))
}

/// The words of arguments, of which the first is given, up to the parenthesis that closes them, and what follows it.
fn words<'a>(
    alloc: Global,
    first: Token,
    tokens: &'a [Token],
    end: u32,
) -> Result<(SmallVec<Token, 1>, &'a [Token]), Fault>
    ensures read { IfOk result (λ r. Listed IsWord argument first tokens.now r.0.items (mark CloseArguments ∷ []) closed r.1.now) }
    ensures stop { IfErr result (Stops end argument tokens.now) }
{
    let mut words = SmallVec::new(alloc);
    words.push(first)?;
    let mut left = tokens;
    while let [token, rest @ ..] = left {
        if token.symbol == Symbol::CloseArguments {
            return Ok((words, rest));
        }
        if token.symbol != Symbol::Comma {
            return Err(bad(left, end));
        }
        let (word, rest) = any_word(rest, end)?;
        words.push(word)?;
        left = rest;
    }
    Err(bad(left, end))
}

/// The arguments of a class up to the parenthesis that closes them, and what follows it. The parenthesis that opens them comes right before
/// `tokens`.
fn argument_list<'a>(
    alloc: Global,
    tokens: &'a [Token],
    end: u32,
) -> Result<(SmallVec<Token, 1>, &'a [Token]), Fault>
    ensures sound { IfOk result (λ r. AllByRecursion IsWord r.0.items) }
    ensures read { IfOk result (λ r. Reads opened tokens.now (listed r.0.items ++ mark CloseArguments ∷ []) closed r.1.now) }
    ensures stop { IfErr result (Stops end opened tokens.now) }
{
    if let [token, rest @ ..] = tokens {
        if token.symbol == Symbol::CloseArguments {
            return Ok((SmallVec::new(alloc), rest));
        }
        if is_word(token.symbol) {
            return words(alloc, *token, rest, end);
        }
    }
    Err(bad(tokens, end))
}

/// The arguments of a class, if there are any, and what follows them.
fn arguments<'a>(
    alloc: Global,
    tokens: &'a [Token],
    end: u32,
) -> Result<(SmallVec<Token, 1>, &'a [Token]), Fault>
    ensures read { IfOk result (λ r. ArgumentsRead tokens.now r.0.items r.1.now) }
    ensures stop { IfErr result (Stops end class tokens.now) }
{
    let Some(rest) = past(Symbol::OpenArguments, tokens) else {
        return Ok((SmallVec::new(alloc), tokens));
    };
    let (words, rest) = argument_list(alloc, rest, end)?;
    Ok((words, rest))
}

/// A declaration whose first name is given, and what follows it.
fn declaration<'a>(
    alloc: Global,
    first: Token,
    tokens: &'a [Token],
    end: u32,
) -> Result<(Declaration, &'a [Token]), Fault>
    ensures read { IfOk result (λ r. DeclarationRead first tokens.now (kept r.0) r.1.now) }
    ensures stop { IfErr result (Stops end further_name tokens.now) }
{
    let (names, rest) = names(alloc, first, tokens, end)?;
    let (class, rest) = one(Symbol::Name, rest, end)?;
    let (arguments, rest) = arguments(alloc, rest, end)?;
    let declaration = Declaration {
        names,
        class,
        arguments,
    };
    Ok((declaration, rest))
}

/// Reads a statement whose first name is given, and keeps what it declares and connects. Returns what follows it.
fn named<'a>(
    alloc: Global,
    first: Token,
    tokens: &'a [Token],
    statements: &mut Statements,
    end: u32,
) -> Result<&'a [Token], Fault>
    requires { IsName first }
    ensures read { IfOk result (λ rest. StatementRead (first ∷ tokens.now) statements.old statements.new rest.now) }
    ensures stop { IfErr result (Stops end start (first ∷ tokens.now)) }
{
    if goes_on(tokens) {
        let (to, rest) = hop(first, tokens, &mut statements.connections, end)?;
        let rest = hops(to, rest, &mut statements.connections, end)?;
        return Ok(rest);
    }
    let (declaration, rest) = declaration(alloc, first, tokens, end)?;
    statements.declarations.push(declaration)?;
    Ok(rest)
}

/// What follows the semicolon at the end of a statement, or nothing if the text ends.
fn after_end<'a>(tokens: &'a [Token], end: u32) -> Result<&'a [Token], Fault>
    ensures read { IfOk result (λ rest. EndRead tokens.now rest.now) }
    ensures stop { IfErr result (Stops end closed tokens.now) }
{
    if tokens.is_empty() {
        return Ok(tokens);
    }
    let (_, rest) = one(Symbol::Semicolon, tokens, end)?;
    Ok(rest)
}

/// Reads a statement and the semicolon after it, and keeps what it declares and connects. Returns what follows it.
fn statement<'a>(
    alloc: Global,
    tokens: &'a [Token],
    statements: &mut Statements,
    end: u32,
) -> Result<&'a [Token], Fault>
    requires { 0 < length tokens.now }
    ensures read { IfOk result (λ rest. EndedRead tokens.now statements.old statements.new rest.now) }
    ensures stop { IfErr result (Stops end start tokens.now) }
{
    if let Some(rest) = past(Symbol::Semicolon, tokens) {
        return Ok(rest);
    }
    let (first, rest) = one(Symbol::Name, tokens, end)?;
    let rest = named(alloc, first, rest, statements, end)?;
    let rest = after_end(rest, end)?;
    Ok(rest)
}

/// What the statements of a text of so many bytes declare and connect, by all its tokens. Fault 1 if an allocation fails. Fault 2 at the
/// first token that can't stand where it does, or at the end of a text that ends inside a statement.
pub fn statements_of(alloc: Global, tokens: &[Token], end: u32) -> Result<Statements, Fault>
    requires within { AreWithin end tokens.now }
    ensures read { IfOk result
        (λ r. (statements : List Statement) × IsText tokens.now statements × (map kept r.declarations.items ≡ flat_map declared_in statements)
        × (r.connections.items ≡ flat_map connected_in statements)) }
    ensures declared_within { IfOk result (λ r. AllByRecursion (IsDeclaredWithin end) (map kept r.declarations.items)) }
    ensures connected_within { IfOk result (λ r. AllByRecursion (IsConnectedWithin end) r.connections.items) }
    ensures fault { IfErr result
        (λ fault. (fault ≡ Memory) ⊎ ((rest : List Token) × (wrong_from start tokens.now ≡ Some rest) × (fault ≡ BadText (offset_of end rest)))) }
    ensures sound { OnOk result (wrong_from start tokens.now ≡ None) }
{
    // Most declarations and most connections have several tokens.
    let room = tokens.len() / 8;
    let mut statements = Statements {
        declarations: Vec::with_capacity(alloc, room)?,
        connections: Vec::with_capacity(alloc, room)?,
    };
    let mut left = tokens;
    while !left.is_empty() {
        left = statement(alloc, left, &mut statements, end)?;
    }
    Ok(statements)
}
