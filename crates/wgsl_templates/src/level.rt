//! Where a bracket ends.

ghost use Rattle.std.specs.Prelude.{◌≡◌, ◌≤◌, ◌<◌, ◌∷◌, length, IfOk, IfSome, false};
ghost use Rattle.wgsl_templates.specs.Kinds as kinds;
ghost use Rattle.wgsl_templates.specs.Tokens as tokens;
ghost use Rattle.wgsl_templates.specs.Levels.{Ends, IsTable, SkipsTo, standing};
ghost use Rattle.wgsl_templates.specs.Levels as levels;

use crate::entry::Entry;
use crate::lexer::is_word;
use crate::meaning::{Bracket, Kind, TemplateToken};
use crate::piece::{Pieces, TemplatePiece, next_at_once};
use crate::recognizer::{Action, Enclosing, Place, State, action, fresh, last_place};
use std::alloc::{AllocError, Global};

/// How many characters stand behind the end of such a bracket, of which these stand behind its beginning: of its own tokens, those up
/// to the first comma of a template list are read, and the brackets in it are gone over by the table. Only memory can fail.
pub(crate) fn end_of<P: Pieces>(
    alloc: Global,
    pieces: &P,
    text: &[char],
    table: &[Entry],
    enclosing: Enclosing,
    place: Place,
) -> Result<Option<usize>, AllocError>
    requires table { IsTable text.now table.now }
    requires covered { length text.now ≤ length table.now }
    ensures { IfOk result (Ends enclosing (standing place) false text.now) }
{
    let opened = [bracket_of(enclosing)];
    let mut state = State {
        place,
        progress: fresh(),
    };
    let mut rest = text;
    let mut after_word = false;
    while let Some((first, behind)) = rest.split_first() {
        if let Some(left) = comment_end(*first, behind, table) {
            let (_, far) = behind.split_at(behind.len() - left);
            rest = far;
            continue;
        }
        let TemplatePiece { length, token } = next_at_once(
            alloc, pieces, rest, *first, behind, after_word, &opened, table,
        )?;
        let (_, back) = rest.split_at(length);
        rest = back;
        let Some(token) = token else {
            continue;
        };
        let (word, kind) = seen_of(token);
        let taken = moved(state, enclosing, kind, table[back.len()]);
        match taken {
            Move::Reads(next) => {
                state = next;
                after_word = word;
            }
            Move::GoesOver(next, left) => {
                let (_, far) = back.split_at(back.len() - left);
                state = next;
                rest = far;
                after_word = false;
            }
            Move::Closes => return Ok(Some(back.len())),
            Move::Answers(end) => return Ok(end),
        }
    }
    Ok(None)
}

/// Whether a `<` behind a token may open a template list, and what the grammar sees of it.
fn seen_of(token: TemplateToken) -> (bool, Kind)
    ensures word { result.0 ≡ tokens.is_word token }
    ensures kind { result.1 ≡ kinds.kind token }
{
    (is_word(&token), token.kind())
}

/// Where a comment to the line's end that stands here ends, with what comments and blankspace follow.
fn comment_end(first: char, behind: &[char], table: &[Entry]) -> Option<usize>
    requires table { IsTable (first ∷ behind.now) table.now }
    requires covered { length behind.now < length table.now }
    ensures within { IfSome result (λ left. left ≤ length behind.now) }
    ensures skips { IfSome result (SkipsTo (first ∷ behind.now)) }
{
    if first != '/' {
        return None;
    }
    table[behind.len()].end
}

/// What a token does within a bracket.
#[derive(Clone, Copy)]
pub(crate) enum Move {
    /// The reader goes on behind it.
    Reads(State),
    /// It opens a bracket, behind the end of which so many characters stand; there the reader goes on.
    GoesOver(State, usize),
    /// It closes the bracket.
    Closes,
    /// The bracket ends where so many characters are left, or never.
    Answers(Option<usize>),
}

/// What a token does where the reader stands, with the table's entry at the token.
fn moved(state: State, enclosing: Enclosing, kind: Kind, entry: Entry) -> Move
    ensures { result ≡ levels.moved state enclosing kind entry }
{
    match action(state, enclosing, kind) {
        Action::Goes(place) => Move::Reads(State {
            place,
            progress: state.progress,
        }),
        Action::Operates(progress) => Move::Reads(State {
            place: Place::Operand,
            progress,
        }),
        Action::Opens(inner) => gone_over(state, inner, entry.end_of(inner)),
        Action::Separates => separated(enclosing, entry.end),
        Action::Closes => Move::Closes,
        Action::Fails => Move::Answers(None),
    }
}

/// Over a bracket that ends there.
fn gone_over(state: State, inner: Enclosing, end: Option<usize>) -> Move
    ensures { result ≡ levels.gone_over state inner end }
{
    match end {
        None => Move::Answers(None),
        Some(left) => {
            let next = State {
                place: last_place(inner),
                progress: state.progress,
            };
            Move::GoesOver(next, left)
        }
    }
}

/// Behind a comma: where a template list ends that goes on there is known.
fn separated(enclosing: Enclosing, end: Option<usize>) -> Move
    ensures { result ≡ levels.separated enclosing end }
{
    match enclosing {
        Enclosing::List => Move::Answers(end),
        _ => Move::Reads(State {
            place: Place::OperandOrEnd,
            progress: fresh(),
        }),
    }
}

/// What such a bracket is for the tokens in it.
fn bracket_of(enclosing: Enclosing) -> Bracket
    ensures { result ≡ levels.bracket enclosing }
{
    match enclosing {
        Enclosing::List => Bracket::TemplateList,
        _ => Bracket::Plain,
    }
}
