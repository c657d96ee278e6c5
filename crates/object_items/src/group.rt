// Groups, and objects in an object of their own. (Reference manual, constructive solid geometry and
// object)
ghost use Rattle.std.specs.Prelude.{◌≡◌, ◌≢◌, ◌≤◌, ◌<◌, ◌-◌, ◌&&◌, ◌++◌, if◌then◌else◌, length, map, IfOk, IfErr, OnOk, true, Ok, Err};
ghost use Rattle.scene_expr.specs.Values.{AreWhole};
ghost use Rattle.item_blocks.specs.declared.fault.ParseFault.TheVariants.{NoMemory};
ghost use Rattle.object_items.specs.Held.{turned_from};
ghost use Rattle.object_items.specs.Objects.{is_union, is_difference, group_of, no_parts, parts_of, row_of, drawn_of, joined, IsNext, IsParts, IsGroupObject, IsHolder, IsInside, IsPart, IsObject};
ghost use Rattle.object_items.specs.Trees.{tree_of, tree_seen};

use crate::object::{ObjectWord, Part, begins_object, object_word};
use crate::sheets::{mesh, triangle};
use crate::solids::leaf;
use crate::statement::{ended, lacking};
use crate::tables::Tables;
use item_blocks::{ParseFault, Wanted, opened, word_at};
use scene_expr::Settings;
use scene_lexer::Token;
use scene_model::{Op, Shape};
use std::alloc::Global;

fn is_union(op: Op) -> bool
    ensures { result ≡ is_union op }
{
    match op {
        Op::Union => true,
        _ => false,
    }
}

fn is_difference(op: Op) -> bool
    ensures { result ≡ is_difference op }
{
    match op {
        Op::Difference => true,
        _ => false,
    }
}

/// Whether triangles may stand in a group, told whether they may stand where the group does.
fn sheets_in(op: Op, sheets: bool) -> bool
    ensures { result ≡ (sheets && is_union op) }
{
    sheets && is_union(op)
}

/// Turns the leaves of a part, which stand from this number on, if it is behind the first of a
/// difference.
fn turn_part(op: Op, begun: bool, from: usize, tables: &mut Tables)
    ensures value { tables.new ≡ (if begun && is_difference op then turned_from from tables.old else tables.old) }
    ensures things { tables.new.things ≡ tables.old.things }
{
    if begun && is_difference(op) {
        tables.turn(from);
    }
}

/// The shape of a group: none where all its parts are triangles.
fn group_of(op: Op, parts: Vec<Shape>) -> Option<Shape>
    ensures { tree_seen result ≡ group_of op (map tree_of parts.items) }
{
    if parts.is_empty() {
        return None;
    }
    Some(Shape::Group {
        op,
        parts,
        inverse: false,
    })
}

/// Puts the shape of a further part behind the others.
fn put(shapes: &mut Vec<Shape>, part: Part) -> Result<(), ParseFault>
    ensures found { OnOk result (map tree_of shapes.new.items ≡ map tree_of shapes.old.items ++ row_of (tree_seen part.shape)) }
    ensures memory { IfErr result (λ f. f ≡ NoMemory) }
{
    if let Some(shape) = part.shape {
        if shapes.push(shape).is_err() {
            return Err(ParseFault::NoMemory);
        }
    }
    Ok(())
}

/// A further part of a group.
#[cycle(objects)]
fn next_part(
    alloc: Global,
    tokens: &[Token],
    set: &Settings,
    depths: usize,
    sheets: bool,
    op: Op,
    begun: bool,
    at: usize,
    shapes: &mut Vec<Shape>,
    tables: &mut Tables,
) -> Result<usize, ParseFault>
    requires few { depths ≤ 64 }
    requires within { at ≤ length tokens.now }
    requires whole { AreWhole set.now }
    ensures found { IfOk result (λ next. IsNext (IsPart tokens.now set.now depths) sheets op (parts_of tables.old shapes.old.items begun) at (Ok (record { value = parts_of tables.new shapes.new.items true; next = next }))) }
    ensures fault { IfErr result (λ f. f ≢ NoMemory → IsNext (IsPart tokens.now set.now depths) sheets op (parts_of tables.old shapes.old.items begun) at (Err f)) }
    ensures within { IfOk result (λ next. (at < next) × (next ≤ length tokens.now)) }
    ensures grown { IfOk result (λ next. length tables.old.things ≤ length tables.new.things) }
{
    let from = tables.leaves().len();
    let (part, next) = part(alloc, tokens, set, depths, sheets, Wanted::Part, at, tables)?;
    turn_part(op, begun, from, tables);
    put(shapes, part)?;
    Ok(next)
}

/// One part of a group or more, inside braces.
#[cycle(objects)]
fn parts(
    alloc: Global,
    tokens: &[Token],
    set: &Settings,
    depths: usize,
    sheets: bool,
    op: Op,
    at: usize,
    tables: &mut Tables,
) -> Result<(Vec<Shape>, usize), ParseFault>
    requires few { depths ≤ 64 }
    requires within { at ≤ length tokens.now }
    requires whole { AreWhole set.now }
    ensures found { IfOk result (λ found. IsParts tokens.now (IsPart tokens.now set.now depths) sheets op (no_parts tables.old) at (Ok (record { value = parts_of tables.new found.0.items true; next = found.1 }))) }
    ensures fault { IfErr result (λ f. f ≢ NoMemory → IsParts tokens.now (IsPart tokens.now set.now depths) sheets op (no_parts tables.old) at (Err f)) }
    ensures within { IfOk result (λ found. (at < found.1) × (found.1 ≤ length tokens.now)) }
    ensures grown { IfOk result (λ found. length tables.old.things ≤ length tables.new.things) }
{
    let mut shapes = Vec::new(alloc);
    let mut next = next_part(
        alloc,
        tokens,
        set,
        depths,
        sheets,
        op,
        false,
        at,
        &mut shapes,
        tables,
    )?;
    'parts: while begins_object(sheets, tokens, next) {
        next = next_part(
            alloc,
            tokens,
            set,
            depths,
            sheets,
            op,
            true,
            next,
            &mut shapes,
            tables,
        )?;
    }
    Ok((shapes, next))
}

/// A group, whose word stands at this token, and the token behind it.
#[cycle(objects)]
fn group(
    alloc: Global,
    tokens: &[Token],
    set: &Settings,
    depths: usize,
    sheets: bool,
    op: Op,
    at: usize,
    tables: &mut Tables,
) -> Result<(Part, usize), ParseFault>
    requires few { depths ≤ 64 }
    requires within { at < length tokens.now }
    requires whole { AreWhole set.now }
    ensures found { IfOk result (λ found. IsGroupObject tokens.now set.now depths (IsInside tokens.now set.now depths) sheets op tables.old at (Ok (record { value = drawn_of found.0 tables.new; next = found.1 }))) }
    ensures fault { IfErr result (λ f. f ≢ NoMemory → IsGroupObject tokens.now set.now depths (IsInside tokens.now set.now depths) sheets op tables.old at (Err f)) }
    ensures within { IfOk result (λ found. (at < found.1) × (found.1 ≤ length tokens.now)) }
    ensures grown { IfOk result (λ found. length tables.old.things ≤ length tables.new.things) }
{
    let start = opened(tokens, depths, at + 1)?;
    let marks = tables.marks();
    let sheets = sheets_in(op, sheets);
    let (shapes, next) = parts(alloc, tokens, set, depths - 1, sheets, op, start, tables)?;
    let part = Part {
        shape: group_of(op, shapes),
        no_shadow: false,
    };
    ended(
        alloc,
        tokens,
        set,
        depths - 1,
        false,
        next,
        &marks,
        part,
        tables,
    )
}

/// An object that holds another one, whose word stands at this token, and the token behind it.
#[cycle(objects)]
fn holder(
    alloc: Global,
    tokens: &[Token],
    set: &Settings,
    depths: usize,
    sheets: bool,
    at: usize,
    tables: &mut Tables,
) -> Result<(Part, usize), ParseFault>
    requires few { depths ≤ 64 }
    requires within { at < length tokens.now }
    requires whole { AreWhole set.now }
    ensures found { IfOk result (λ found. IsHolder tokens.now set.now depths (IsInside tokens.now set.now depths) sheets tables.old at (Ok (record { value = drawn_of found.0 tables.new; next = found.1 }))) }
    ensures fault { IfErr result (λ f. f ≢ NoMemory → IsHolder tokens.now set.now depths (IsInside tokens.now set.now depths) sheets tables.old at (Err f)) }
    ensures within { IfOk result (λ found. (at < found.1) × (found.1 ≤ length tokens.now)) }
    ensures grown { IfOk result (λ found. length tables.old.things ≤ length tables.new.things) }
{
    let start = opened(tokens, depths, at + 1)?;
    let marks = tables.marks();
    let (part, next) = part(
        alloc,
        tokens,
        set,
        depths - 1,
        sheets,
        Wanted::Item,
        start,
        tables,
    )?;
    ended(
        alloc,
        tokens,
        set,
        depths - 1,
        false,
        next,
        &marks,
        part,
        tables,
    )
}

/// An object by its word, which stands at this token, and the token behind it. So many further braces
/// may be open.
#[cycle(objects)]
pub fn object(
    alloc: Global,
    tokens: &[Token],
    set: &Settings,
    depths: usize,
    sheets: bool,
    word: ObjectWord,
    at: usize,
    tables: &mut Tables,
) -> Result<(Part, usize), ParseFault>
    requires few { depths ≤ 64 }
    requires within { at < length tokens.now }
    requires whole { AreWhole set.now }
    ensures found { IfOk result (λ found. IsObject tokens.now set.now depths sheets word tables.old at (Ok (record { value = drawn_of found.0 tables.new; next = found.1 }))) }
    ensures fault { IfErr result (λ f. f ≢ NoMemory → IsObject tokens.now set.now depths sheets word tables.old at (Err f)) }
    ensures within { IfOk result (λ found. (at < found.1) × (found.1 ≤ length tokens.now)) }
    ensures grown { IfOk result (λ found. length tables.old.things ≤ length tables.new.things) }
{
    match word {
        ObjectWord::Solid(word) => leaf(alloc, tokens, set, depths, word, at, tables),
        ObjectWord::Triangle { smooth } => {
            triangle(alloc, tokens, set, depths, smooth, at, tables)
        }
        ObjectWord::Mesh => mesh(alloc, tokens, set, depths, at, tables),
        ObjectWord::Group(op) => group(alloc, tokens, set, depths, sheets, op, at, tables),
        ObjectWord::Holder => holder(alloc, tokens, set, depths, sheets, at, tables),
    }
}

/// An object that stands in another one, if its word stands here; else this is wanted.
#[cycle(objects)]
fn part(
    alloc: Global,
    tokens: &[Token],
    set: &Settings,
    depths: usize,
    sheets: bool,
    wanted: Wanted,
    at: usize,
    tables: &mut Tables,
) -> Result<(Part, usize), ParseFault>
    requires few { depths ≤ 64 }
    requires within { at ≤ length tokens.now }
    requires whole { AreWhole set.now }
    ensures found { IfOk result (λ found. IsPart tokens.now set.now depths sheets wanted tables.old at (Ok (record { value = drawn_of found.0 tables.new; next = found.1 }))) }
    ensures fault { IfErr result (λ f. f ≢ NoMemory → IsPart tokens.now set.now depths sheets wanted tables.old at (Err f)) }
    ensures within { IfOk result (λ found. (at < found.1) × (found.1 ≤ length tokens.now)) }
    ensures grown { IfOk result (λ found. length tables.old.things ≤ length tables.new.things) }
{
    match object_word(word_at(tokens, at), sheets) {
        Some(word) => object(alloc, tokens, set, depths, sheets, word, at, tables),
        None => Err(lacking(wanted, false, tokens, at)),
    }
}
