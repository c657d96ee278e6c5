// What is passed over: truth words, and what bounds an object. (Reference manual, hollow and
// bounded_by)
ghost use Rattle.std.specs.Prelude.{◌≡◌, ◌≢◌, ◌≤◌, ◌<◌, ◌+◌, ◌-◌, length, IfOk, IfErr, IsSome, Some, Ok, Err, true};
ghost use Rattle.item_blocks.specs.Tokens.{spelling_at, opened, unfit_at};
ghost use Rattle.item_blocks.specs.declared.fault.ParseFault.TheVariants.{NoMemory};
ghost use Rattle.object_items.specs.Skipped.{is_truth, behind_truth, IsSkipped, IsPassedOver};

use item_blocks::{ParseFault, Wanted, opened, sign_at, unfit_at};
use scene_lexer::{Kind, Token, sign};

fn is_truth_word(word: &[u8]) -> bool
    ensures { result ≡ is_truth (Some word.now) }
{
    word == b"true".as_slice()
        || word == b"on".as_slice()
        || word == b"yes".as_slice()
        || word == b"false".as_slice()
        || word == b"off".as_slice()
        || word == b"no".as_slice()
}

fn is_truth_at(tokens: &[Token], at: usize) -> bool
    ensures value { result ≡ is_truth (spelling_at tokens.now at) }
    ensures within { result ≡ true → at < length tokens.now }
{
    match tokens.get(at) {
        Some(token) => match &token.kind {
            Kind::Word(name) => is_truth_word(name.bytes()),
            _ => false,
        },
        None => false,
    }
}

/// The place behind a truth word, where there is one.
pub fn behind_truth(tokens: &[Token], at: usize) -> usize
    requires { at ≤ length tokens.now }
    ensures value { result ≡ behind_truth tokens.now at }
    ensures within { (at ≤ result) × (result ≤ length tokens.now) }
{
    if is_truth_at(tokens, at) { at + 1 } else { at }
}

/// The place behind balanced braces, the first of which stands here. So many may be open.
pub fn skipped(tokens: &[Token], depths: usize, at: usize) -> Result<usize, ParseFault>
    requires within { at ≤ length tokens.now }
    requires few { depths ≤ 64 }
    ensures found { IfOk result (λ next. IsPassedOver tokens.now depths at (Ok next)) }
    ensures fault { IfErr result (λ f. IsPassedOver tokens.now depths at (Err f)) }
    ensures within { IfOk result (λ next. (at < next) × (next ≤ length tokens.now)) }
{
    let start = opened(tokens, depths, at)?;
    let mut next = start;
    let mut left = 1;
    'tokens: while left > 0 {
        if next == tokens.len() {
            return Err(unfit_at(Wanted::CloseBrace, tokens, next));
        }
        let code = sign_at(tokens, next);
        if code == sign::OPEN_BRACE {
            next = opened(tokens, depths - left, next)?;
            left += 1;
        } else if code == sign::CLOSE_BRACE {
            next += 1;
            left -= 1;
        } else {
            next += 1;
        }
    }
    Ok(next)
}
