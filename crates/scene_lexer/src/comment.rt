// Comments: to the end of the line, and nested ones.
ghost use Rattle.std.specs.Prelude.{◌≡◌, ◌≢◌, ◌+◌, ◌-◌, ◌≤◌, ◌<◌, ◌^◌, length, drop, IsTrue, IfOk, IfErr};
ghost use Rattle.std.specs.Prelude.{MatchOption, None};
ghost use Rattle.scene_lexer.specs.Spellings.{opens_comment, opens_line_comment, is_in_line};
ghost use Rattle.scene_lexer.specs.Spellings.{mark_tail, depth_after, comment_rest};
ghost use Rattle.std.specs.List.{prefix_len};
ghost use Rattle.scene_lexer.specs.Tokens.{piece_tokens, front_of};
ghost use Rattle.scene_lexer.specs.Steps.{IsClosedComment, IsFound};
ghost use Rattle.scene_lexer.specs.declared.token.LexFault.TheVariants.{NoMemory};

use crate::bytes::line_end;
use crate::found::Found;
use crate::scan::rest_of;
use crate::{LexFault, Place};

/// How many comments are open behind the mark or byte that the text begins with, where `depth` are open
/// before, and how many bytes it takes.
#[inline(always)]
fn passed(text: &[u8], depth: u32) -> (u32, usize)
    requires open { 0 < depth }
    requires fits { depth + 1 < 2 ^ 32 }
    ensures depth { result.0 ≡ depth_after (depth - 1) text.now }
    ensures length { result.1 ≡ 1 + mark_tail text.now }
{
    match text {
        [b'/', b'*', ..] => (depth + 1, 2),
        [b'*', b'/', ..] => (depth - 1, 2),
        _ => (depth, 1),
    }
}

/// The comment that the text begins with, up to where it and all within it are closed; none where it stays
/// open.
fn closed_comment(text: &[u8]) -> Option<Found>
    requires opens { IsTrue (opens_comment text.now) }
    requires size { length text.now ≤ 2 ^ 24 }
    ensures { MatchOption result (comment_rest 0 1 (drop 2 text.now) ≡ None) (IsClosedComment text.now) }
{
    let mut at = 2;
    let mut depth = 1;
    let mut lines = 0;
    'comment: while depth > 0 {
        if at >= text.len() {
            return None;
        }
        let (open, length) = passed(rest_of(text, at), depth);
        depth = open;
        lines += line_end(text[at]);
        at += length;
    }
    Some(Found {
        kind: None,
        length: at,
        lines,
    })
}

/// The nested comment that the text begins with.
pub fn read_comment(text: &[u8], place: Place) -> Result<Found, LexFault>
    requires opens { IsTrue (opens_comment text.now) }
    requires size { length text.now ≤ 2 ^ 24 }
    ensures found { IfOk result (IsFound place text.now) }
    ensures fault { IfErr result (λ f. piece_tokens place (front_of text.now) ≡ Err f) }
    ensures memory { IfErr result (λ f. f ≢ NoMemory) }
{
    match closed_comment(text) {
        Some(found) => Ok(found),
        None => Err(LexFault::OpenComment(place)),
    }
}

/// How many bytes the text has before its first line feed.
fn line_length(text: &[u8]) -> usize
    ensures length { result ≡ prefix_len is_in_line text.now }
{
    text.iter().take_while(|byte| **byte != b'\n').count()
}

/// The comment to the end of the line that the text begins with.
pub fn read_line_comment(text: &[u8], place: Place) -> Found
    requires opens { IsTrue (opens_line_comment text.now) }
    ensures { IsFound place text.now result }
{
    Found {
        kind: None,
        length: line_length(text),
        lines: 0,
    }
}
