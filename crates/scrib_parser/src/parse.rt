//! The parser: a function for each nonterminal of the grammar.

ghost use Rattle.std.specs.Prelude.{◌≡◌, IfOk, IfErr};
ghost use Rattle.scrib_lexer.specs.Lexeme.{lexemes_of};
ghost use Rattle.scrib_parser.specs.Grammar.{IsModule, ParseGives, IsParseFault};
ghost use Rattle.scrib_parser.specs.Reading as reading;
ghost use Rattle.scrib_parser.specs.Reading.{left, Gives, GivesAll};

use crate::cursor::{Cursor, left_out_declaration};
use crate::fault::ParseFault;
use crate::interner::{Interner, slot_count};
use crate::messages::Sorts;
use crate::sorts::SortInterner;
use crate::word::Word;
use scrib_lexer::token::{Keyword, Token, TokenKind};
use scrib_tree::tree::{
    Block, Import, ModuleTree, ProtocolDeclaration, RoleDeclaration, Statement,
};
use scrib_types::containers::Items;
use scrib_types::name::{Dotted, Name};
use scrib_types::one_or_many::OneOrMany;
use scrib_types::spot::Spot;
use std::alloc::Global;

/// The most levels of nested blocks. A protocol's own block is the first level.
pub const MAX_LEVELS: usize = 64;

// The initial capacity of a list of names. Few messages have more receivers.
const FEW: usize = 2;

/// The module that the tokens are. The tree keeps the text's order; a type declaration leaves nothing in it. Names and
/// messages share their memory with those in the interner.
///
/// # Errors
/// - `Unexpected` with the place of the first token that no module can have after the tokens before it.
/// - `LeftOut` in place of `Unexpected` for a form that is left out, with its word and the word's place. Either the
///   token is `local`, `sig`, `aux`, `explicit` or `from` at the start of a declaration. Or it directly follows `par`,
///   `interruptible`, `connect` or `disconnect` at the start of a statement.
/// - `TooDeep` with the place of the brace that opens a 65th level of blocks.
/// - `EndOfText` where the tokens are the beginning of a module, but no module.
/// - `OutOfMemory` where memory for the tree, or for reading it, is refused.
pub fn parse(
    alloc: Global,
    tokens: &[Token],
    interner: &mut Interner,
) -> Result<ModuleTree, ParseFault>
    // The tokens spell the returned tree.
    ensures found { IfOk result (λ m. IsModule (lexemes_of tokens.now) m) }
    // A tree that the tokens spell is returned, unless memory is refused: the tokens spell at most one tree.
    ensures only { (m : ModuleTree) → IsModule (lexemes_of tokens.now) m → ParseGives result m }
    // The fault is the leftmost one.
    ensures fault { IfErr result (λ e. IsParseFault (lexemes_of tokens.now) e) }
{
    whole(alloc, tokens, interner)
}

fn whole(alloc: Global, tokens: &[Token], interner: &mut Interner) -> Result<ModuleTree, ParseFault>
    ensures { GivesAll result (reading.whole_of MAX_LEVELS (lexemes_of tokens.now)) }
{
    let count = slot_count(tokens.len());
    let (names, messages) = interner.take(alloc, count)?;
    let mut tokens = Cursor {
        rest: tokens,
        names,
        sorts: SortInterner::new(alloc, count)?,
        messages,
    };
    let tree = whole_tree(alloc, &mut tokens);
    let Cursor {
        names,
        messages,
        ..
    } = tokens;
    interner.give_back(names, messages);
    tree
}

// The module that all of the tokens are.
#[tactic(auto, unfolding(crate::specs::Reading::whole_of))]
fn whole_tree(alloc: Global, tokens: &mut Cursor) -> Result<ModuleTree, ParseFault>
    ensures { GivesAll result (reading.whole_of MAX_LEVELS (left tokens.old)) }
{
    let tree = module_tree(alloc, MAX_LEVELS, tokens)?;
    match tokens.rest {
        [] => Ok(tree),
        [token, ..] => match left_out_declaration(token) {
            Some(word) => Err(ParseFault::LeftOut {
                word,
                at: token.spot,
            }),
            None => Err(ParseFault::Unexpected { at: token.spot }),
        },
    }
}

// `"module" dotted ";" { import } { decl }`
#[tactic(auto, unfolding(crate::specs::Reading::module_of))]
fn module_tree(alloc: Global, levels: usize, tokens: &mut Cursor) -> Result<ModuleTree, ParseFault>
    ensures { Gives result (left tokens.new) (reading.module_of levels (left tokens.old)) }
{
    tokens.take(TokenKind::Keyword(Keyword::Module))?;
    let name = dotted(alloc, tokens)?;
    tokens.take(TokenKind::Semicolon)?;
    let imports = imports(alloc, tokens)?;
    let protocols = declarations(alloc, levels, tokens)?;
    Ok(ModuleTree {
        name,
        imports,
        protocols,
    })
}

// `{ import }`
fn imports(alloc: Global, tokens: &mut Cursor) -> Result<Items<Import>, ParseFault>
    ensures { Gives result (left tokens.new) (reading.imports_of (left tokens.old)) }
{
    let mut imports = Vec::new(alloc);
    while tokens.next_is(TokenKind::Keyword(Keyword::Import)) {
        imports.push(import(alloc, tokens)?)?;
    }
    Ok(fitted(imports))
}

// `"import" dotted [ "as" name ] ";"`
#[tactic(auto, unfolding(crate::specs::Reading::import_of))]
fn import(alloc: Global, tokens: &mut Cursor) -> Result<Import, ParseFault>
    ensures { Gives result (left tokens.new) (reading.import_of (left tokens.old)) }
{
    let spot = tokens.take(TokenKind::Keyword(Keyword::Import))?;
    let module = dotted(alloc, tokens)?;
    let known_as = known_as(alloc, tokens)?;
    tokens.take(TokenKind::Semicolon)?;
    Ok(Import {
        module,
        known_as,
        spot,
    })
}

// `[ "as" name ]`
#[tactic(auto, unfolding(crate::specs::Reading::known_as_of))]
fn known_as(alloc: Global, tokens: &mut Cursor) -> Result<Option<Name>, ParseFault>
    ensures { Gives result (left tokens.new) (reading.known_as_of (left tokens.old)) }
{
    if tokens.next_is(TokenKind::Keyword(Keyword::As)) {
        tokens.take(TokenKind::Keyword(Keyword::As))?;
        Ok(Some(tokens.name(alloc)?))
    } else {
        Ok(None)
    }
}

// `{ decl }`
fn declarations(
    alloc: Global,
    levels: usize,
    tokens: &mut Cursor,
) -> Result<Items<ProtocolDeclaration>, ParseFault>
    ensures { Gives result (left tokens.new) (reading.declarations_of levels (left tokens.old)) }
{
    let mut protocols = Vec::new(alloc);
    while tokens.next_begins_declaration() {
        let declared = declaration(alloc, levels, tokens)?;
        if let Some(protocol) = declared {
            protocols.push(protocol)?;
        }
    }
    Ok(fitted(protocols))
}

// `typedecl | protocol`
#[tactic(auto, unfolding(crate::specs::Reading::read_declaration))]
fn declaration(
    alloc: Global,
    levels: usize,
    tokens: &mut Cursor,
) -> Result<Option<ProtocolDeclaration>, ParseFault>
    ensures { Gives result (left tokens.new) (reading.read_declaration levels (left tokens.old)) }
{
    if tokens.next_is(TokenKind::Keyword(Keyword::Type)) {
        type_declaration(alloc, tokens)?;
        Ok(None)
    } else {
        Ok(Some(protocol(alloc, levels, tokens)?))
    }
}

// `"type" "<" name ">" string "from" string "as" name ";"`
#[tactic(auto, unfolding(crate::specs::Reading::type_declaration_of))]
fn type_declaration(alloc: Global, tokens: &mut Cursor) -> Result<Spot, ParseFault>
    ensures { Gives result (left tokens.new) (reading.type_declaration_of (left tokens.old)) }
{
    tokens.take(TokenKind::Keyword(Keyword::Type))?;
    tokens.take(TokenKind::OpenAngle)?;
    tokens.name(alloc)?;
    tokens.take(TokenKind::CloseAngle)?;
    tokens.take(TokenKind::StringLiteral)?;
    tokens.take(TokenKind::Keyword(Keyword::From))?;
    tokens.take(TokenKind::StringLiteral)?;
    tokens.take(TokenKind::Keyword(Keyword::As))?;
    tokens.name(alloc)?;
    tokens.take(TokenKind::Semicolon)
}

// `"global" "protocol" name "(" role { "," role } ")" block`
#[tactic(auto, unfolding(crate::specs::Reading::protocol_of))]
fn protocol(
    alloc: Global,
    levels: usize,
    tokens: &mut Cursor,
) -> Result<ProtocolDeclaration, ParseFault>
    ensures { Gives result (left tokens.new) (reading.protocol_of levels (left tokens.old)) }
{
    let spot = tokens.take(TokenKind::Keyword(Keyword::Global))?;
    tokens.take(TokenKind::Keyword(Keyword::Protocol))?;
    let name = tokens.name(alloc)?;
    tokens.take(TokenKind::OpenParen)?;
    let roles = roles(alloc, tokens)?;
    tokens.take(TokenKind::CloseParen)?;
    let body = block(alloc, levels, tokens)?.body;
    Ok(ProtocolDeclaration {
        name,
        roles,
        body,
        spot,
    })
}

// `role { "," role }`
#[tactic(auto, unfolding(crate::specs::Reading::read_roles))]
fn roles(alloc: Global, tokens: &mut Cursor) -> Result<Items<RoleDeclaration>, ParseFault>
    ensures { Gives result (left tokens.new) (reading.read_roles (left tokens.old)) }
{
    let mut roles = Vec::new(alloc);
    roles.push(role(alloc, tokens)?)?;
    while tokens.next_is(TokenKind::Comma) {
        tokens.take(TokenKind::Comma)?;
        roles.push(role(alloc, tokens)?)?;
    }
    Ok(fitted(roles))
}

// `"role" name`
#[tactic(auto, unfolding(crate::specs::Reading::role_of))]
fn role(alloc: Global, tokens: &mut Cursor) -> Result<RoleDeclaration, ParseFault>
    ensures { Gives result (left tokens.new) (reading.role_of (left tokens.old)) }
{
    let spot = tokens.take(TokenKind::Keyword(Keyword::Role))?;
    let name = tokens.name(alloc)?;
    Ok(RoleDeclaration { name, spot })
}

// A block with at most this number of levels of blocks, its own the first.
#[cycle(blocks)]
fn block(alloc: Global, levels: usize, tokens: &mut Cursor) -> Result<Block, ParseFault>
    ensures { Gives result (left tokens.new) (reading.block_of levels (left tokens.old)) }
{
    if levels == 0 {
        return Err(tokens.too_deep());
    }
    opened_block(alloc, levels - 1, tokens)
}

// `"{" { statement } "}"`, with at most this number of levels of blocks in each statement.
#[cycle(blocks)]
#[tactic(auto, unfolding(crate::specs::Reading::opened_block_of))]
fn opened_block(alloc: Global, levels: usize, tokens: &mut Cursor) -> Result<Block, ParseFault>
    ensures { Gives result (left tokens.new) (reading.opened_block_of (reading.block_of levels) (left tokens.old)) }
{
    let spot = tokens.take(TokenKind::OpenBrace)?;
    let body = statements(alloc, levels, tokens)?;
    tokens.take(TokenKind::CloseBrace)?;
    Ok(Block { body, spot })
}

// `{ statement }`, with at most this number of levels of blocks in each.
#[cycle(blocks)]
fn statements(
    alloc: Global,
    levels: usize,
    tokens: &mut Cursor,
) -> Result<Items<Statement>, ParseFault>
    ensures { Gives result (left tokens.new) (reading.statements_of (reading.block_of levels) (left tokens.old)) }
{
    let mut statements = Vec::new(alloc);
    while tokens.next_begins_statement() {
        statements.push(statement(alloc, levels, tokens)?)?;
    }
    Ok(fitted(statements))
}

// `message | choice | rec | continue | do`
#[cycle(blocks)]
#[tactic(auto, unfolding(crate::specs::Reading::statement_of))]
fn statement(alloc: Global, levels: usize, tokens: &mut Cursor) -> Result<Statement, ParseFault>
    ensures { Gives result (left tokens.new) (reading.statement_of (reading.block_of levels) (left tokens.old)) }
{
    if tokens.next_is(TokenKind::Keyword(Keyword::Choice)) {
        choice(alloc, levels, tokens)
    } else if tokens.next_is(TokenKind::Keyword(Keyword::Rec)) {
        recursion(alloc, levels, tokens)
    } else if tokens.next_is(TokenKind::Keyword(Keyword::Continue)) {
        jump(alloc, tokens)
    } else if tokens.next_is(TokenKind::Keyword(Keyword::Do)) {
        call(alloc, tokens)
    } else {
        message(alloc, tokens)
    }
}

// `"choice" "at" name block { "or" block }`
#[cycle(blocks)]
#[tactic(auto, unfolding(crate::specs::Reading::read_choice))]
fn choice(alloc: Global, levels: usize, tokens: &mut Cursor) -> Result<Statement, ParseFault>
    ensures { Gives result (left tokens.new) (reading.read_choice (reading.block_of levels) (left tokens.old)) }
{
    let spot = tokens.take(TokenKind::Keyword(Keyword::Choice))?;
    tokens.take(TokenKind::Keyword(Keyword::At))?;
    let at = tokens.name(alloc)?;
    let branches = blocks(alloc, levels, tokens)?;
    Ok(Statement::Choice { at, branches, spot })
}

// `block { "or" block }`
#[cycle(blocks)]
#[tactic(auto, unfolding(crate::specs::Reading::read_blocks))]
fn blocks(alloc: Global, levels: usize, tokens: &mut Cursor) -> Result<Items<Block>, ParseFault>
    ensures { Gives result (left tokens.new) (reading.read_blocks (reading.block_of levels) (left tokens.old)) }
{
    let mut blocks = Vec::new(alloc);
    blocks.push(block(alloc, levels, tokens)?)?;
    while tokens.next_is(TokenKind::Keyword(Keyword::Or)) {
        tokens.take(TokenKind::Keyword(Keyword::Or))?;
        blocks.push(block(alloc, levels, tokens)?)?;
    }
    Ok(fitted(blocks))
}

// `"rec" name block`
#[cycle(blocks)]
#[tactic(auto, unfolding(crate::specs::Reading::recursion_of))]
fn recursion(alloc: Global, levels: usize, tokens: &mut Cursor) -> Result<Statement, ParseFault>
    ensures { Gives result (left tokens.new) (reading.recursion_of (reading.block_of levels) (left tokens.old)) }
{
    let spot = tokens.take(TokenKind::Keyword(Keyword::Rec))?;
    let name = tokens.name(alloc)?;
    let body = block(alloc, levels, tokens)?.body;
    Ok(Statement::Rec { name, body, spot })
}

// `"continue" name ";"`
#[tactic(auto, unfolding(crate::specs::Reading::jump_of))]
fn jump(alloc: Global, tokens: &mut Cursor) -> Result<Statement, ParseFault>
    ensures { Gives result (left tokens.new) (reading.jump_of (left tokens.old)) }
{
    let spot = tokens.take(TokenKind::Keyword(Keyword::Continue))?;
    let name = tokens.name(alloc)?;
    tokens.take(TokenKind::Semicolon)?;
    Ok(Statement::Continue { name, spot })
}

// `"do" dotted "(" name { "," name } ")" ";"`
#[tactic(auto, unfolding(crate::specs::Reading::call_of))]
fn call(alloc: Global, tokens: &mut Cursor) -> Result<Statement, ParseFault>
    ensures { Gives result (left tokens.new) (reading.call_of (left tokens.old)) }
{
    let spot = tokens.take(TokenKind::Keyword(Keyword::Do))?;
    let protocol = dotted(alloc, tokens)?;
    tokens.take(TokenKind::OpenParen)?;
    let roles = names(alloc, tokens)?;
    tokens.take(TokenKind::CloseParen)?;
    tokens.take(TokenKind::Semicolon)?;
    Ok(Statement::Do {
        protocol,
        roles,
        spot,
    })
}

// `[ name ] "(" [ element { "," element } ] ")" "from" name "to" name { "," name } ";"`
#[tactic(auto, unfolding(crate::specs::Reading::read_message))]
fn message(alloc: Global, tokens: &mut Cursor) -> Result<Statement, ParseFault>
    ensures { Gives result (left tokens.new) (reading.read_message (left tokens.old)) }
{
    let (op, spot) = opening(alloc, tokens)?;
    let payload = payload(alloc, tokens)?;
    tokens.take(TokenKind::CloseParen)?;
    tokens.take(TokenKind::Keyword(Keyword::From))?;
    let from = tokens.name(alloc)?;
    tokens.take(TokenKind::Keyword(Keyword::To))?;
    let to = names(alloc, tokens)?;
    tokens.take(TokenKind::Semicolon)?;
    let message = tokens.messages.intern(alloc, op, payload)?;
    Ok(Statement::Message {
        message,
        from,
        to,
        spot,
    })
}

// `name { "," name }`
#[tactic(auto, unfolding(crate::specs::Reading::read_names))]
fn names(alloc: Global, tokens: &mut Cursor) -> Result<OneOrMany<Name>, ParseFault>
    ensures { Gives result (left tokens.new) (reading.read_names (left tokens.old)) }
{
    let first = tokens.name(alloc)?;
    if !tokens.next_is(TokenKind::Comma) {
        return Ok(OneOrMany::one(first));
    }
    let mut names = Vec::with_capacity(alloc, FEW)?;
    names.push(first)?;
    while tokens.next_is(TokenKind::Comma) {
        tokens.take(TokenKind::Comma)?;
        names.push(tokens.name(alloc)?)?;
    }
    Ok(OneOrMany::from_vec(names))
}

// `[ name ] "("`, with the place of the first token.
#[tactic(auto, unfolding(crate::specs::Reading::opening_of))]
fn opening(alloc: Global, tokens: &mut Cursor) -> Result<(Option<Name>, Spot), ParseFault>
    ensures { Gives result (left tokens.new) (reading.opening_of (left tokens.old)) }
{
    if tokens.next_is(TokenKind::Name) {
        named_opening(alloc, tokens)
    } else {
        let spot = tokens.take(TokenKind::OpenParen)?;
        Ok((None, spot))
    }
}

// `name "("`, with the place of the name.
#[tactic(auto, unfolding(crate::specs::Reading::named_opening_of))]
fn named_opening(alloc: Global, tokens: &mut Cursor) -> Result<(Option<Name>, Spot), ParseFault>
    ensures { Gives result (left tokens.new) (reading.named_opening_of (left tokens.old)) }
{
    let (op, spot) = tokens.placed_name(alloc)?;
    tokens.take_paren(&op, spot)?;
    Ok((Some(op), spot))
}

// `[ element { "," element } ]`
#[tactic(auto, unfolding(crate::specs::Reading::payload_of))]
fn payload(alloc: Global, tokens: &mut Cursor) -> Result<Sorts, ParseFault>
    ensures { Gives result (left tokens.new) (reading.payload_of (left tokens.old)) }
{
    if tokens.next_is(TokenKind::Name) {
        elements(alloc, tokens)
    } else {
        Ok(Sorts::from_vec(Vec::new(alloc)))
    }
}

// `element { "," element }`
#[tactic(auto, unfolding(crate::specs::Reading::elements_of))]
fn elements(alloc: Global, tokens: &mut Cursor) -> Result<Sorts, ParseFault>
    ensures { Gives result (left tokens.new) (reading.elements_of (left tokens.old)) }
{
    let mut sorts = tokens.messages.room(alloc)?;
    sorts.push(element(alloc, tokens)?)?;
    while tokens.next_is(TokenKind::Comma) {
        tokens.take(TokenKind::Comma)?;
        sorts.push(element(alloc, tokens)?)?;
    }
    Ok(Sorts::from_vec(sorts))
}

// `[ name ":" ] dotted`, without the name before the colon.
#[tactic(auto, unfolding(crate::specs::Reading::element_of))]
fn element(alloc: Global, tokens: &mut Cursor) -> Result<Dotted, ParseFault>
    ensures { Gives result (left tokens.new) (reading.element_of (left tokens.old)) }
{
    let first = tokens.word()?;
    if tokens.next_is(TokenKind::Colon) {
        tokens.take(TokenKind::Colon)?;
        dotted(alloc, tokens)
    } else {
        dotted_from(alloc, first, tokens)
    }
}

// `name { "." name }`
#[tactic(auto, unfolding(crate::specs::Reading::dotted_of))]
fn dotted(alloc: Global, tokens: &mut Cursor) -> Result<Dotted, ParseFault>
    ensures { Gives result (left tokens.new) (reading.dotted_of (left tokens.old)) }
{
    let first = tokens.word()?;
    dotted_from(alloc, first, tokens)
}

// `{ "." name }`, after the first name.
#[tactic(auto, unfolding(crate::specs::Reading::dotted_from))]
fn dotted_from<'a>(
    alloc: Global,
    first: Word<'a>,
    tokens: &mut Cursor<'_, 'a>,
) -> Result<Dotted, ParseFault>
    ensures { Gives result (left tokens.new) (reading.dotted_from first.entry (left tokens.old)) }
{
    let mut words = tokens.sorts.room(alloc);
    words.push(first)?;
    while tokens.next_is(TokenKind::Dot) {
        tokens.take(TokenKind::Dot)?;
        words.push(tokens.word()?)?;
    }
    Ok(tokens.sorts.intern(alloc, &mut tokens.names, words)?)
}

// The list without spare capacity, since a tree keeps it long. Where memory for the smaller list is refused, the list
// stays as it is.
fn fitted<T>(items: Vec<T>) -> Items<T>
    ensures { result ≡ items.items }
{
    let mut items = items;
    items.shrink_to_fit();
    Items::from_vec(items)
}
