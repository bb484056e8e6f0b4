//! Blankspace and comments (WGSL, "Blankspace and Line Breaks" and "Comments").

ghost use Rattle.std.specs.Prelude.{◌≡◌, ◌≤◌, length, take, drop};
ghost use Rattle.wgsl_lex.specs.Tokens.{is_blank, is_line_break, is_block_comment_tail};
ghost use Rattle.wgsl_lex.specs.Runs.{IsLongestRun, begins_with_pair};
ghost use Rattle.wgsl_lex.specs.Pieces.{IsCommentAnswer};

use crate::run::line_run;

/// Whether a character is a line break (WGSL, "Blankspace and Line Breaks").
pub fn is_line_break(character: char) -> bool
    ensures { result ≡ is_line_break character }
{
    matches!(
        character,
        '\u{A}'..='\r' | '\u{85}' | '\u{2028}' | '\u{2029}'
    )
}

/// Whether a character is blankspace (WGSL, "Blankspace and Line Breaks").
pub fn is_blankspace(character: char) -> bool
    ensures { result ≡ is_blank character }
{
    matches!(
        character,
        ' ' | '\t'..='\r' | '\u{85}' | '\u{200E}' | '\u{200F}' | '\u{2028}' | '\u{2029}'
    )
}

/// How many characters a comment has, if one begins with this character.
pub(crate) fn comment_length(first: char, behind: &[char]) -> Option<usize>
    ensures { IsCommentAnswer first behind.now result }
{
    if first != '/' {
        return None;
    }
    let (second, tail) = behind.split_first()?;
    if *second == '/' {
        Some(2 + line_run(tail))
    } else if *second == '*' {
        Some(2 + block_comment_length(tail))
    } else {
        None
    }
}

/// How many characters a block comment has behind its opening `/*`, up to where it closes or to the end.
fn block_comment_length(behind: &[char]) -> usize
    ensures within { result ≤ length behind.now }
    ensures longest { IsLongestRun (is_block_comment_tail 1) (take result behind.now) (drop result behind.now) }
{
    let mut depth: usize = 1;
    let mut at: usize = 0;
    while depth > 0 && at < behind.len() {
        let (_, rest) = behind.split_at(at);
        if is_pair(rest, '*', '/') {
            depth -= 1;
            at += 2;
        } else if is_pair(rest, '/', '*') {
            depth += 1;
            at += 2;
        } else {
            at += 1;
        }
    }
    at
}

/// Whether these two characters stand first.
fn is_pair(characters: &[char], first: char, second: char) -> bool
    ensures { result ≡ begins_with_pair first second characters.now }
{
    if characters.len() < 2 {
        return false;
    }
    (characters[0] == first) & (characters[1] == second)
}
