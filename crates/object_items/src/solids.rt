// Solids as objects. (Reference manual, finite and infinite solid primitives)
ghost use Rattle.std.specs.Prelude.{◌≡◌, ◌≢◌, ◌≤◌, ◌<◌, length, IfOk, IfErr, Ok, Err};
ghost use Rattle.scene_expr.specs.Values.{AreWhole};
ghost use Rattle.item_blocks.specs.declared.fault.ParseFault.TheVariants.{NoMemory};
ghost use Rattle.object_items.specs.Objects.{drawn_of};
ghost use Rattle.object_items.specs.Held.{leaf_number};
ghost use Rattle.object_items.specs.Statements.{IsCounted, IsLeafObject};

use crate::object::Part;
use crate::statement::{counted, ended};
use crate::tables::Tables;
use item_blocks::{ParseFault, SolidWord, opened};
use scene_expr::Settings;
use scene_lexer::Token;
use scene_model::Shape;
use solid_items::{SolidDraft, solid};
use std::alloc::Global;

/// The most leaves of a scene.
const MOST_LEAVES: usize = 65_536;

/// The parameters of a solid, whose word stands at this token and counts, behind an opening brace.
fn parameters(
    alloc: Global,
    tokens: &[Token],
    set: &Settings,
    depths: usize,
    word: SolidWord,
    at: usize,
    tables: &Tables,
) -> Result<(SolidDraft, usize), ParseFault>
    requires within { at < length tokens.now }
    requires whole { AreWhole set.now }
    ensures found { IfOk result (λ found. IsCounted tokens.now set.now depths word (leaf_number tables.now) at (Ok (record { value = found.0; next = found.1 }))) }
    ensures fault { IfErr result (λ f. f ≢ NoMemory → IsCounted tokens.now set.now depths word (leaf_number tables.now) at (Err f)) }
    ensures within { IfOk result (λ found. (at < found.1) × (found.1 ≤ length tokens.now)) }
    ensures room { IfOk result (λ found. (0 < depths) × (leaf_number tables.now < 65536)) }
{
    let (before, more) = (tables.leaves_before(), tables.leaves().len());
    let brace = counted(5, MOST_LEAVES, before, more, tokens, at)?;
    let start = opened(tokens, depths, brace)?;
    let (solid, next) = solid(alloc, tokens, set, word, start)?;
    Ok((solid, next))
}

/// A solid, whose word stands at this token, and the token behind it.
pub fn leaf(
    alloc: Global,
    tokens: &[Token],
    set: &Settings,
    depths: usize,
    word: SolidWord,
    at: usize,
    tables: &mut Tables,
) -> Result<(Part, usize), ParseFault>
    requires few { depths ≤ 64 }
    requires within { at < length tokens.now }
    requires whole { AreWhole set.now }
    ensures found { IfOk result (λ found. IsLeafObject tokens.now set.now depths word tables.old at (Ok (record { value = drawn_of found.0 tables.new; next = found.1 }))) }
    ensures fault { IfErr result (λ f. f ≢ NoMemory → IsLeafObject tokens.now set.now depths word tables.old at (Err f)) }
    ensures within { IfOk result (λ found. (at < found.1) × (found.1 ≤ length tokens.now)) }
    ensures grown { IfOk result (λ found. length tables.old.things ≤ length tables.new.things) }
{
    let (solid, next) = parameters(alloc, tokens, set, depths, word, at, tables)?;
    let marks = tables.marks();
    let part = Part {
        shape: Some(Shape::Leaf(tables.leaf_number())),
        no_shadow: false,
    };
    tables.add_leaf(alloc, solid)?;
    ended(
        alloc,
        tokens,
        set,
        depths - 1,
        false,
        next,
        &marks,
        part,
        tables,
    )
}
