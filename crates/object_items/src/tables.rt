// What an object holds while it is read.
ghost use Rattle.std.specs.Prelude.{◌≡◌, ◌≢◌, ◌≤◌, ◌<◌, ◌+◌, ◌-◌, ◌++◌, ◌∷◌, [], slice_index_or, drop, if◌then◌else◌, length, IfOk, IfErr, OnOk, Some, None, Ok, Err};
ghost use Rattle.item_blocks.specs.Steps.{IsMovedIn};
ghost use Rattle.item_blocks.specs.Tokens.{or_else};
ghost use Rattle.item_blocks.specs.declared.fault.ParseFault.TheVariants.{NoMemory};
ghost use Rattle.scene_expr.specs.Values.{AreWhole};
ghost use Rattle.object_items.specs.Held.{Held, nothing_held, marks_of, with_thing, with_moved, without_last, with_sheet, with_texture, is_given, only_if, from_on, clad_leaf, clad_sheet, fill_leaf, fill_sheet, turn_leaf, turned_from, flip_leaf, flipped_from, with_leaf, leaf_number, clad, filled, closed_looks};

use item_blocks::{Interior, MaterialDraft, ParseFault, TextureDraft, moved};
use scene_expr::Settings;
use scene_lexer::Token;
use solid_items::{SheetDraft, SolidDraft};
use std::alloc::Global;
use std::marker::Model;
use std::mem::replace;
use xform::{Xform, start};

/// A solid of the object.
#[derive(Clone, Copy)]
pub struct LeafDraft {
    pub solid: SolidDraft,
    /// The number of its transform among the things that steps move.
    pub thing: usize,
    pub inverse: bool,
    pub negated: bool,
    /// The number of its texture among those of the object.
    pub texture: Option<usize>,
    pub interior: Option<Interior>,
}

/// A triangle of the object.
#[derive(Clone, Copy)]
pub struct SheetPart {
    pub sheet: SheetDraft,
    pub thing: usize,
    pub texture: Option<usize>,
    pub interior: Option<Interior>,
}

/// A texture that is given in the object.
#[derive(Drop)]
pub struct GivenTexture {
    pub texture: TextureDraft,
    /// The number of its pigment's transform, where it has a pigment.
    pub thing: Option<usize>,
}

/// All that an object holds, in the order as written. Contracts see it as its lists.
#[derive(Drop)]
pub struct Tables {
    /// The transforms of the things that steps move.
    xforms: Vec<Xform>,
    leaves: Vec<LeafDraft>,
    sheets: Vec<SheetPart>,
    textures: Vec<GivenTexture>,
    /// How many leaves and triangles stand in the objects before.
    leaves_before: usize,
    sheets_before: usize,
}

impl Model for Tables {
    ghost use Rattle.object_items.specs.Held.{Held};

    ghost Value = { Held };

    ghost view = { λ tables. record {
      things = tables.xforms.items;
      leaves = tables.leaves.items;
      sheets = tables.sheets.items;
      textures = tables.textures.items;
      leaves_before = tables.leaves_before;
      sheets_before = tables.sheets_before;
    } };
}

/// Where a statement begins in the tables.
#[derive(Clone, Copy)]
pub struct Marks {
    pub things: usize,
    pub leaves: usize,
    pub sheets: usize,
}

/// The list with one element more.
fn added<T: Copy>(mut list: Vec<T>, one: T) -> Result<Vec<T>, ParseFault>
    ensures found { IfOk result (λ more. more.items ≡ list.items ++ one ∷ []) }
    ensures memory { IfErr result (λ f. f ≡ NoMemory) }
{
    if list.push(one).is_err() {
        return Err(ParseFault::NoMemory);
    }
    Ok(list)
}

/// A texture of its own, or else this one.
fn own_or(texture: Option<usize>, number: usize) -> Option<usize>
    ensures { result ≡ or_else texture (Some number) }
{
    texture.or(Some(number))
}

impl LeafDraft {
    fn clad(&mut self, number: usize)
        ensures { self.new ≡ clad_leaf number self.old }
    {
        self.texture = own_or(self.texture, number);
    }

    fn fill(&mut self, interior: &Interior)
        ensures { self.new ≡ fill_leaf interior.now self.old }
    {
        self.interior = self.interior.or(Some(*interior));
    }

    fn turn(&mut self)
        ensures { self.new ≡ turn_leaf self.old }
    {
        self.negated = !self.negated;
    }

    fn flip(&mut self)
        ensures { self.new ≡ flip_leaf self.old }
    {
        self.inverse = !self.inverse;
    }
}

impl SheetPart {
    fn clad(&mut self, number: usize)
        ensures { self.new ≡ clad_sheet number self.old }
    {
        self.texture = own_or(self.texture, number);
    }

    fn fill(&mut self, interior: &Interior)
        ensures { self.new ≡ fill_sheet interior.now self.old }
    {
        self.interior = self.interior.or(Some(*interior));
    }
}

fn clad_leaves(leaves: &mut [LeafDraft], from: usize, number: usize)
    ensures { leaves.new ≡ from_on from (clad_leaf number) leaves.old }
{
    'leaves: for i in from..leaves.len() {
        leaves[i].clad(number);
    }
}

fn clad_sheets(sheets: &mut [SheetPart], from: usize, number: usize)
    ensures { sheets.new ≡ from_on from (clad_sheet number) sheets.old }
{
    'sheets: for i in from..sheets.len() {
        sheets[i].clad(number);
    }
}

fn fill_leaves(leaves: &mut [LeafDraft], from: usize, interior: &Interior)
    ensures { leaves.new ≡ from_on from (fill_leaf interior.now) leaves.old }
{
    'leaves: for i in from..leaves.len() {
        leaves[i].fill(interior);
    }
}

fn fill_sheets(sheets: &mut [SheetPart], from: usize, interior: &Interior)
    ensures { sheets.new ≡ from_on from (fill_sheet interior.now) sheets.old }
{
    'sheets: for i in from..sheets.len() {
        sheets[i].fill(interior);
    }
}

fn turn_leaves(leaves: &mut [LeafDraft], from: usize)
    ensures { leaves.new ≡ from_on from turn_leaf leaves.old }
{
    'leaves: for i in from..leaves.len() {
        leaves[i].turn();
    }
}

fn flip_leaves(leaves: &mut [LeafDraft], from: usize)
    ensures { leaves.new ≡ from_on from flip_leaf leaves.old }
{
    'leaves: for i in from..leaves.len() {
        leaves[i].flip();
    }
}

impl Tables {
    pub fn new(alloc: Global, leaves_before: usize, sheets_before: usize) -> Tables
        ensures { result ≡ nothing_held leaves_before sheets_before }
    {
        Tables {
            xforms: Vec::new(alloc),
            leaves: Vec::new(alloc),
            sheets: Vec::new(alloc),
            textures: Vec::new(alloc),
            leaves_before,
            sheets_before,
        }
    }

    pub fn marks(&self) -> Marks
        ensures { result ≡ marks_of self.now }
    {
        Marks {
            things: self.xforms.len(),
            leaves: self.leaves.len(),
            sheets: self.sheets.len(),
        }
    }

    pub fn leaves(&self) -> &[LeafDraft]
        ensures { result.now ≡ self.now.leaves }
    {
        &self.leaves
    }

    pub fn sheets(&self) -> &[SheetPart]
        ensures { result.now ≡ self.now.sheets }
    {
        &self.sheets
    }

    pub fn xforms(&self) -> &[Xform]
        ensures { result.now ≡ self.now.things }
    {
        &self.xforms
    }

    /// The textures that are given; what has become of a pigment's transform is its thing.
    pub fn textures(&self) -> &[GivenTexture]
        ensures { result.now ≡ self.now.textures }
    {
        &self.textures
    }

    pub fn leaves_before(&self) -> usize
        ensures { result ≡ self.now.leaves_before }
    {
        self.leaves_before
    }

    pub fn sheets_before(&self) -> usize
        ensures { result ≡ self.now.sheets_before }
    {
        self.sheets_before
    }

    /// The number in the scene of the leaf that is read next.
    pub fn leaf_number(&self) -> u32
        requires { leaf_number self.now < 65536 }
        ensures { result ≡ leaf_number self.now }
    {
        (self.leaves_before + self.leaves.len()) as u32
    }

    /// A further thing, and its number.
    pub fn add_thing(&mut self, x: Xform) -> Result<usize, ParseFault>
        ensures found { OnOk result (self.new ≡ with_thing x self.old) }
        ensures number { IfOk result (λ thing. thing ≡ length self.old.things) }
        ensures memory { IfErr result (λ f. f ≡ NoMemory) }
    {
        let thing = self.xforms.len();
        if self.xforms.push(x).is_err() {
            return Err(ParseFault::NoMemory);
        }
        Ok(thing)
    }

    /// Takes the last thing back, as what it has become.
    pub fn take_thing(&mut self, x: &mut Xform)
        ensures taken { self.new ≡ without_last self.old }
        ensures last { x.new ≡ slice_index_or self.old.things (length self.old.things - 1) x.old }
    {
        *x = self.xforms.pop().unwrap_or(*x);
    }

    /// Moves all things from a number on.
    pub fn move_things(
        &mut self,
        alloc: Global,
        tokens: &[Token],
        set: &Settings,
        depths: usize,
        at: usize,
        from: usize,
    ) -> Result<usize, ParseFault>
        requires within { at ≤ length tokens.now }
        requires whole { AreWhole set.now }
        requires from { from ≤ length self.now.things }
        ensures found { IfOk result (λ next. (xforms : _) × IsMovedIn tokens.now set.now depths (drop from self.old.things) at (Ok (record { value = xforms; next = next })) × (self.new ≡ with_moved from xforms self.old) × (from + length xforms ≡ length self.old.things)) }
        ensures fault { IfErr result (λ f. f ≢ NoMemory → IsMovedIn tokens.now set.now depths (drop from self.old.things) at (Err f)) }
        ensures within { IfOk result (λ next. (at < next) × (next ≤ length tokens.now)) }
    {
        let next = moved(alloc, tokens, set, depths, at, &mut self.xforms[from..])?;
        Ok(next)
    }

    /// A solid, whose transform is a thing of its own.
    pub fn add_leaf(&mut self, alloc: Global, solid: SolidDraft) -> Result<(), ParseFault>
        ensures found { OnOk result (self.new ≡ with_leaf solid self.old) }
        ensures memory { IfErr result (λ f. f ≡ NoMemory) }
    {
        let thing = self.add_thing(start())?;
        let leaf = LeafDraft {
            solid,
            thing,
            inverse: false,
            negated: false,
            texture: None,
            interior: None,
        };
        let leaves = replace(&mut self.leaves, Vec::new(alloc));
        self.leaves = added(leaves, leaf)?;
        Ok(())
    }

    /// A triangle that is moved by this thing, with the number of its own texture, if it has one.
    pub fn add_sheet(
        &mut self,
        sheet: SheetDraft,
        thing: usize,
        texture: Option<usize>,
    ) -> Result<(), ParseFault>
        ensures found { OnOk result (self.new ≡ with_sheet sheet thing texture self.old) }
        ensures things { OnOk result (self.new.things ≡ self.old.things) }
        ensures memory { IfErr result (λ f. f ≡ NoMemory) }
    {
        let part = SheetPart {
            sheet,
            thing,
            texture,
            interior: None,
        };
        if self.sheets.push(part).is_err() {
            return Err(ParseFault::NoMemory);
        }
        Ok(())
    }

    /// A further texture, and its number; none where none of its parts is given.
    pub fn add_texture(&mut self, texture: TextureDraft) -> Result<Option<usize>, ParseFault>
        ensures found { OnOk result (self.new ≡ (if is_given texture then with_texture texture self.old else self.old)) }
        ensures number { IfOk result (λ number. number ≡ only_if (is_given texture) (length self.old.textures)) }
        ensures grown { IfOk result (λ number. length self.old.things ≤ length self.new.things) }
        ensures memory { IfErr result (λ f. f ≡ NoMemory) }
    {
        if texture.pigment.is_none() && texture.finish.is_none() {
            return Ok(None);
        }
        let number = self.textures.len();
        let thing = match &texture.pigment {
            Some(pigment) => Some(self.add_thing(pigment.xform)?),
            None => None,
        };
        if self.textures.push(GivenTexture { texture, thing }).is_err() {
            return Err(ParseFault::NoMemory);
        }
        Ok(Some(number))
    }

    /// What has no texture of its own from the marks on takes this one.
    fn clad(&mut self, marks: &Marks, number: usize)
        ensures value { self.new ≡ clad marks.now number self.old }
        ensures things { self.new.things ≡ self.old.things }
    {
        clad_leaves(&mut self.leaves, marks.leaves, number);
        clad_sheets(&mut self.sheets, marks.sheets, number);
    }

    /// What has no interior of its own from the marks on takes this one.
    fn fill(&mut self, marks: &Marks, interior: &Interior)
        ensures value { self.new ≡ filled marks.now (Some interior.now) self.old }
        ensures things { self.new.things ≡ self.old.things }
    {
        fill_leaves(&mut self.leaves, marks.leaves, interior);
        fill_sheets(&mut self.sheets, marks.sheets, interior);
    }

    /// Going into the object is going out of these leaves, and the other way round.
    pub fn turn(&mut self, from: usize)
        ensures value { self.new ≡ turned_from from self.old }
        ensures things { self.new.things ≡ self.old.things }
    {
        turn_leaves(&mut self.leaves, from);
    }

    /// The leaves from this number on hold where they didn't.
    pub fn flip(&mut self, from: usize)
        ensures value { self.new ≡ flipped_from from self.old }
        ensures things { self.new.things ≡ self.old.things }
    {
        flip_leaves(&mut self.leaves, from);
    }

    /// The looks of a statement are closed: they count for all that has none of its own.
    pub fn close(&mut self, marks: &Marks, looks: MaterialDraft) -> Result<(), ParseFault>
        ensures found { OnOk result (self.new ≡ closed_looks marks.now looks self.old) }
        ensures grown { OnOk result (length self.old.things ≤ length self.new.things) }
        ensures memory { IfErr result (λ f. f ≡ NoMemory) }
    {
        if let Some(number) = self.add_texture(looks.texture)? {
            self.clad(marks, number);
        }
        if let Some(interior) = &looks.interior {
            self.fill(marks, interior);
        }
        Ok(())
    }
}
