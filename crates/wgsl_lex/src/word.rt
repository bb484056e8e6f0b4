//! Words (WGSL, "Identifiers", "Keywords" and "Reserved Words").

ghost use Rattle.std.specs.Prelude.{◌≡◌, ◌<◌, ◌+◌, ◌∷◌, true, length, take, Some, IfOk, IsTrue};
ghost use Rattle.std.specs.Str.{encode_utf8_all};
ghost use Rattle.wgsl_lex.specs.Tokens.{is_word, begins_with_two_underscores, token_form};
ghost use Rattle.wgsl_lex.specs.Rows.{IsRow};
ghost use Rattle.wgsl_lex.specs.Pieces.{IsListed, is_listable, opens_word, begins_with_continue};

use crate::rows::row;
use std::alloc::{AllocError, Global};
use std::str;
use unicode_ident::{is_xid_continue, is_xid_start};
use wgsl_token::{Fixed, Text, Token};

/// The words that are no identifiers, in order, with their tokens: none for those that are reserved.
static WORDS: [(&str, Option<Fixed>); 172] = [
    ("NULL", None),
    ("Self", None),
    ("abstract", None),
    ("active", None),
    ("alias", Some(Fixed::Alias)),
    ("alignas", None),
    ("alignof", None),
    ("as", Some(Fixed::As)),
    ("asm", None),
    ("asm_fragment", None),
    ("async", None),
    ("attribute", None),
    ("auto", None),
    ("await", None),
    ("become", None),
    ("break", Some(Fixed::Break)),
    ("case", Some(Fixed::Case)),
    ("cast", None),
    ("catch", None),
    ("class", None),
    ("co_await", None),
    ("co_return", None),
    ("co_yield", None),
    ("coherent", None),
    ("column_major", None),
    ("common", None),
    ("compile", None),
    ("compile_fragment", None),
    ("concept", None),
    ("const", Some(Fixed::Const)),
    ("const_assert", Some(Fixed::ConstAssert)),
    ("const_cast", None),
    ("consteval", None),
    ("constexpr", None),
    ("constinit", None),
    ("continue", Some(Fixed::Continue)),
    ("continuing", Some(Fixed::Continuing)),
    ("crate", None),
    ("debugger", None),
    ("decltype", None),
    ("default", Some(Fixed::Default)),
    ("delete", None),
    ("demote", None),
    ("demote_to_helper", None),
    ("diagnostic", Some(Fixed::Diagnostic)),
    ("discard", Some(Fixed::Discard)),
    ("do", None),
    ("dynamic_cast", None),
    ("else", Some(Fixed::Else)),
    ("enable", Some(Fixed::Enable)),
    ("enum", None),
    ("explicit", None),
    ("export", None),
    ("extends", None),
    ("extern", None),
    ("external", None),
    ("fallthrough", None),
    ("false", Some(Fixed::False)),
    ("filter", None),
    ("final", None),
    ("finally", None),
    ("fn", Some(Fixed::Fn)),
    ("for", Some(Fixed::For)),
    ("friend", None),
    ("from", None),
    ("fxgroup", None),
    ("get", None),
    ("goto", None),
    ("groupshared", None),
    ("highp", None),
    ("if", Some(Fixed::If)),
    ("impl", None),
    ("implements", None),
    ("import", Some(Fixed::Import)),
    ("inline", None),
    ("instanceof", None),
    ("interface", None),
    ("layout", None),
    ("let", Some(Fixed::Let)),
    ("loop", Some(Fixed::Loop)),
    ("lowp", None),
    ("macro", None),
    ("macro_rules", None),
    ("match", None),
    ("mediump", None),
    ("meta", None),
    ("mod", None),
    ("module", None),
    ("move", None),
    ("mut", None),
    ("mutable", None),
    ("namespace", None),
    ("new", None),
    ("nil", None),
    ("noexcept", None),
    ("noinline", None),
    ("nointerpolation", None),
    ("non_coherent", None),
    ("noncoherent", None),
    ("noperspective", None),
    ("null", None),
    ("nullptr", None),
    ("of", None),
    ("operator", None),
    ("override", Some(Fixed::Override)),
    ("package", Some(Fixed::Package)),
    ("packoffset", None),
    ("partial", None),
    ("pass", None),
    ("patch", None),
    ("pixelfragment", None),
    ("precise", None),
    ("precision", None),
    ("premerge", None),
    ("priv", None),
    ("protected", None),
    ("pub", None),
    ("public", None),
    ("readonly", None),
    ("ref", None),
    ("regardless", None),
    ("register", None),
    ("reinterpret_cast", None),
    ("require", None),
    ("requires", Some(Fixed::Requires)),
    ("resource", None),
    ("restrict", None),
    ("return", Some(Fixed::Return)),
    ("self", None),
    ("set", None),
    ("shared", None),
    ("sizeof", None),
    ("smooth", None),
    ("snorm", None),
    ("static", None),
    ("static_assert", None),
    ("static_cast", None),
    ("std", None),
    ("struct", Some(Fixed::Struct)),
    ("subroutine", None),
    ("super", Some(Fixed::Super)),
    ("switch", Some(Fixed::Switch)),
    ("target", None),
    ("template", None),
    ("this", None),
    ("thread_local", None),
    ("throw", None),
    ("trait", None),
    ("true", Some(Fixed::True)),
    ("try", None),
    ("type", None),
    ("typedef", None),
    ("typeid", None),
    ("typename", None),
    ("typeof", None),
    ("union", None),
    ("unless", None),
    ("unorm", None),
    ("unsafe", None),
    ("unsized", None),
    ("use", None),
    ("using", None),
    ("var", Some(Fixed::Var)),
    ("varying", None),
    ("virtual", None),
    ("volatile", None),
    ("wgsl", None),
    ("where", None),
    ("while", Some(Fixed::While)),
    ("with", None),
    ("writeonly", None),
    ("yield", None),
];

/// Whether a word begins with this character, of which those stand behind.
pub(crate) fn begins_word(first: char, behind: &[char]) -> bool
    ensures { result ≡ opens_word first behind.now }
{
    is_xid_start(first) || (first == '_' && continues_word(behind))
}

/// Whether the first of these characters continues a word.
fn continues_word(characters: &[char]) -> bool
    ensures { result ≡ begins_with_continue characters.now }
{
    match characters.first() {
        Some(first) => is_xid_continue(*first),
        None => false,
    }
}

/// The token of a word, given by its first character and those behind.
pub(crate) fn word_token(alloc: Global, first: char, behind: &[char]) -> Result<Token, AllocError>
    requires { is_word (first ∷ behind.now) ≡ true }
    ensures { IfOk result (λ token. token_form (first ∷ behind.now) ≡ Some token) }
{
    if is_underscored(first, behind) {
        return Ok(Token::Invalid);
    }
    let text = text_of(alloc, first, behind)?;
    match listed(text.as_str()) {
        Some(Some(fixed)) => Ok(Token::Fixed(fixed)),
        Some(None) => Ok(Token::Reserved(text)),
        None => Ok(Token::Identifier(text)),
    }
}

/// Whether a word begins with two underscores.
fn is_underscored(first: char, behind: &[char]) -> bool
    ensures { result ≡ begins_with_two_underscores (first ∷ behind.now) }
{
    match behind.first() {
        Some(second) => (first == '_') & (*second == '_'),
        None => false,
    }
}

/// What the table has of a word.
#[inline(always)]
pub(crate) fn listed(word: &str) -> Option<Option<Fixed>>
    ensures { IsListed word.now result }
{
    if !is_listable(word) {
        return None;
    }
    found(&WORDS, row(word), word)
}

/// What a row of a table has, if it is this word's.
#[inline(always)]
fn found(table: &[(&str, Option<Fixed>)], at: usize, word: &str) -> Option<Option<Fixed>>
    requires { at < length table.now }
    ensures { IsRow (λ entry. entry.0.now) (λ entry. entry.1) table.now at word.now result }
{
    let entry = table[at];
    if entry.0 == word { Some(entry.1) } else { None }
}

/// Whether a word is as long as one of the table may be.
fn is_listable(word: &str) -> bool
    ensures { result ≡ is_listable word.now }
{
    word.len() > 1 && word.len() < 17
}

/// The text that some characters spell.
pub(crate) fn text_of(alloc: Global, first: char, behind: &[char]) -> Result<Text, AllocError>
    ensures { IfOk result (λ text. text ≡ encode_utf8_all (first ∷ behind.now)) }
{
    let mut bytes = [0; 16];
    if spell(&mut bytes, first, behind)
        && let Ok(text) = str::from_utf8(&bytes[..behind.len() + 1])
    {
        return Text::from_str(alloc, text);
    }
    joined(alloc, first, behind)
}

/// Writes a character and those behind it to the front, if they are in ASCII and fit.
fn spell(bytes: &mut [u8; 16], first: char, behind: &[char]) -> bool
    ensures within { IsTrue result → length behind.now < 16 }
    ensures text { IsTrue result → take (length behind.now + 1) bytes.new ≡ encode_utf8_all (first ∷ behind.now) }
{
    if behind.len() > 15 || !first.is_ascii() {
        return false;
    }
    bytes[0] = first as u8;
    for (at, character) in behind.iter().enumerate() {
        if !character.is_ascii() {
            return false;
        }
        bytes[at + 1] = *character as u8;
    }
    true
}

/// The same, one character after another.
fn joined(alloc: Global, first: char, behind: &[char]) -> Result<Text, AllocError>
    ensures { IfOk result (λ text. text ≡ encode_utf8_all (first ∷ behind.now)) }
{
    let mut text = Text::new(alloc);
    text.push(first)?;
    for character in behind {
        text.push(*character)?;
    }
    Ok(text)
}
