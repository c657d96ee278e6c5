// What all statements of objects have: a word that counts, and behind their parts what is said of them
// up to the closing brace.
ghost use Rattle.std.specs.Prelude.{◌≡◌, ◌≢◌, ◌≤◌, ◌<◌, ◌+◌, length, IfOk, IfErr, OnOk, Ok, Err};
ghost use Rattle.scene_expr.specs.Values.{AreWhole};
ghost use Rattle.item_blocks.specs.declared.fault.ParseFault.TheVariants.{NoMemory};
ghost use Rattle.object_items.specs.Modifiers.{said_of, unsaid};
ghost use Rattle.object_items.specs.Objects.{drawn_of};
ghost use Rattle.object_items.specs.Held.{Held};
ghost use Rattle.object_items.specs.Statements.{counted, lacking, is_leaf, inverse_tree, inverse_of, inverted, ended, IsSaid, IsEnded};
ghost use Rattle.object_items.specs.Trees.{tree_of, tree_seen};

use crate::modifier::{Modifiers, modifier_part, take_modifier};
use crate::object::Part;
use crate::tables::{Marks, Tables};
use item_blocks::{ParseFault, Wanted, no_material, sign_at, unfit_at, word_at};
use scene_expr::{Settings, place_at};
use scene_lexer::{Token, sign};
use scene_model::Shape;
use std::alloc::Global;

/// The place behind the word of a leaf or a triangle: of at most so many, so many stand in the objects
/// before and so many more in this one.
pub fn counted(
    which: u8,
    most: usize,
    before: usize,
    more: usize,
    tokens: &[Token],
    at: usize,
) -> Result<usize, ParseFault>
    requires { at < length tokens.now }
    ensures value { result ≡ counted which most (before + more) tokens.now at }
    ensures within { IfOk result (λ next. (next ≡ at + 1) × (before + more < most)) }
    ensures memory { IfErr result (λ f. f ≢ NoMemory) }
{
    if more < most.saturating_sub(before) {
        Ok(at + 1)
    } else {
        Err(ParseFault::Limit {
            which,
            place: place_at(tokens, at),
        })
    }
}

/// The fault of a token where a part is wanted and none stands yet.
pub fn lacking(wanted: Wanted, mesh: bool, tokens: &[Token], at: usize) -> ParseFault
    ensures value { result ≡ lacking wanted mesh tokens.now at }
    ensures memory { result ≢ NoMemory }
{
    match modifier_part(word_at(tokens, at), mesh) {
        Some(_part) => ParseFault::Expected {
            place: place_at(tokens, at),
            kind: wanted,
        },
        None => unfit_at(wanted, tokens, at),
    }
}

/// Takes modifiers up to the closing brace, and answers the token behind it.
fn take_modifiers(
    alloc: Global,
    tokens: &[Token],
    set: &Settings,
    depths: usize,
    mesh: bool,
    at: usize,
    marks: &Marks,
    modifiers: &mut Modifiers,
    tables: &mut Tables,
) -> Result<usize, ParseFault>
    requires few { depths ≤ 64 }
    requires within { at ≤ length tokens.now }
    requires whole { AreWhole set.now }
    requires marks { marks.now.things ≤ length tables.now.things }
    ensures found { IfOk result (λ next. IsSaid tokens.now set.now depths mesh marks.now (said_of modifiers.old tables.old) at (Ok (record { value = said_of modifiers.new tables.new; next = next }))) }
    ensures fault { IfErr result (λ f. f ≢ NoMemory → IsSaid tokens.now set.now depths mesh marks.now (said_of modifiers.old tables.old) at (Err f)) }
    ensures within { IfOk result (λ next. (at < next) × (next ≤ length tokens.now)) }
    ensures marks { IfOk result (λ next. marks.now.things ≤ length tables.new.things) }
{
    let mut next = at;
    'modifiers: while sign_at(tokens, next) != sign::CLOSE_BRACE {
        next = take_modifier(
            alloc, tokens, set, depths, mesh, next, marks, modifiers, tables,
        )?;
    }
    Ok(next + 1)
}

fn inverse_shape(shape: Shape) -> Shape
    ensures { tree_of result ≡ inverse_tree (tree_of shape) }
{
    match shape {
        Shape::Leaf(number) => Shape::Leaf(number),
        Shape::Group { op, parts, inverse } => Shape::Group {
            op,
            parts,
            inverse: !inverse,
        },
    }
}

fn inverse_of(shape: Option<Shape>) -> Option<Shape>
    ensures { tree_seen result ≡ inverse_of (tree_seen shape) }
{
    match shape {
        Some(shape) => Some(inverse_shape(shape)),
        None => None,
    }
}

fn is_leaf(shape: &Option<Shape>) -> bool
    ensures { result ≡ is_leaf (tree_seen shape.now) }
{
    match shape {
        Some(Shape::Leaf(_number)) => true,
        Some(Shape::Group { .. }) => false,
        None => false,
    }
}

/// The part, inverted if this is said, with all its leaves, which stand from this number on.
fn inverted(inverse: bool, from: usize, part: Part, tables: &mut Tables) -> Part
    ensures value { drawn_of result tables.new ≡ inverted inverse from (drawn_of part tables.old) }
    ensures things { tables.new.things ≡ tables.old.things }
{
    if !inverse {
        return part;
    }
    if is_leaf(&part.shape) {
        tables.flip(from);
    }
    tables.turn(from);
    Part {
        shape: inverse_of(part.shape),
        no_shadow: part.no_shadow,
    }
}

/// The part, where its statement is closed: what is said of it counts for all that stands in it.
fn closed(
    marks: &Marks,
    modifiers: Modifiers,
    part: Part,
    tables: &mut Tables,
) -> Result<Part, ParseFault>
    ensures found { IfOk result (λ part_ended. drawn_of part_ended tables.new ≡ ended marks.now (tree_seen part.shape) part.no_shadow (said_of modifiers tables.old)) }
    ensures grown { IfOk result (λ part_ended. length tables.old.things ≤ length tables.new.things) }
    ensures memory { IfErr result (λ f. f ≡ NoMemory) }
{
    let Modifiers {
        looks,
        inverse,
        no_shadow,
    } = modifiers;
    tables.close(marks, looks)?;
    let whole = Part {
        shape: part.shape,
        no_shadow: part.no_shadow || no_shadow,
    };
    Ok(inverted(inverse, marks.leaves, whole, tables))
}

fn unsaid() -> Modifiers
    ensures { (held : Held) → said_of result held ≡ unsaid held }
{
    Modifiers {
        looks: no_material(),
        inverse: false,
        no_shadow: false,
    }
}

/// What is left of a statement behind its parts, which stand from the marks on; and the token behind
/// its closing brace.
pub fn ended(
    alloc: Global,
    tokens: &[Token],
    set: &Settings,
    depths: usize,
    mesh: bool,
    at: usize,
    marks: &Marks,
    part: Part,
    tables: &mut Tables,
) -> Result<(Part, usize), ParseFault>
    requires few { depths ≤ 64 }
    requires within { at ≤ length tokens.now }
    requires whole { AreWhole set.now }
    requires marks { marks.now.things ≤ length tables.now.things }
    ensures found { IfOk result (λ found. IsEnded tokens.now set.now depths mesh marks.now (tree_seen part.shape) part.no_shadow tables.old at (Ok (record { value = drawn_of found.0 tables.new; next = found.1 }))) }
    ensures fault { IfErr result (λ f. f ≢ NoMemory → IsEnded tokens.now set.now depths mesh marks.now (tree_seen part.shape) part.no_shadow tables.old at (Err f)) }
    ensures within { IfOk result (λ found. (at < found.1) × (found.1 ≤ length tokens.now)) }
    ensures marks { IfOk result (λ found. marks.now.things ≤ length tables.new.things) }
{
    let mut modifiers = unsaid();
    let next = take_modifiers(
        alloc,
        tokens,
        set,
        depths,
        mesh,
        at,
        marks,
        &mut modifiers,
        tables,
    )?;
    let part = closed(marks, modifiers, part, tables)?;
    Ok((part, next))
}
