// The words that the language keeps for itself.
ghost use Rattle.std.specs.Prelude.{◌≡◌};
ghost use Rattle.text_structure.specs.Words.{known_in, kept, known_of, by_class};

use crate::mark::{Directive, Known};
use scene_expr::{WordClass, word_class};

/// The words of directives, items, parameters and modifiers. The definitions read this very table.
static KEPT: [(&[u8], Known); 96] = [
    (b"if", Known::Directive(Directive::If)),
    (b"ifdef", Known::Directive(Directive::Ifdef)),
    (b"ifndef", Known::Directive(Directive::Ifndef)),
    (b"while", Known::Directive(Directive::While)),
    (b"for", Known::Directive(Directive::For)),
    (b"switch", Known::Directive(Directive::Switch)),
    (b"macro", Known::Directive(Directive::Macro)),
    (b"end", Known::Directive(Directive::End)),
    (b"else", Known::Directive(Directive::Else)),
    (b"case", Known::Directive(Directive::Case)),
    (b"range", Known::Directive(Directive::Range)),
    (b"break", Known::Directive(Directive::Break)),
    (b"declare", Known::Directive(Directive::Declare)),
    (b"local", Known::Directive(Directive::Local)),
    (b"undef", Known::Directive(Directive::Undef)),
    (b"include", Known::Directive(Directive::Include)),
    (b"error", Known::Directive(Directive::Error)),
    (b"warning", Known::Directive(Directive::Message)),
    (b"debug", Known::Directive(Directive::Message)),
    (b"render", Known::Directive(Directive::Message)),
    (b"statistics", Known::Directive(Directive::Message)),
    (b"version", Known::Directive(Directive::Version)),
    (b"default", Known::Directive(Directive::Default)),
    (b"defined", Known::Defined),
    (b"sphere", Known::Block),
    (b"box", Known::Block),
    (b"plane", Known::Block),
    (b"cylinder", Known::Block),
    (b"cone", Known::Block),
    (b"quadric", Known::Block),
    (b"union", Known::Block),
    (b"merge", Known::Block),
    (b"intersection", Known::Block),
    (b"difference", Known::Block),
    (b"object", Known::Block),
    (b"triangle", Known::Block),
    (b"smooth_triangle", Known::Block),
    (b"mesh", Known::Block),
    (b"texture", Known::Block),
    (b"pigment", Known::Block),
    (b"finish", Known::Block),
    (b"interior", Known::Block),
    (b"material", Known::Block),
    (b"transform", Known::Block),
    (b"camera", Known::Block),
    (b"light_source", Known::Block),
    (b"color_map", Known::Block),
    (b"colour_map", Known::Block),
    (b"open", Known::Other),
    (b"translate", Known::Other),
    (b"scale", Known::Other),
    (b"rotate", Known::Other),
    (b"matrix", Known::Other),
    (b"inverse", Known::Other),
    (b"no_shadow", Known::Other),
    (b"hollow", Known::Other),
    (b"bounded_by", Known::Other),
    (b"checker", Known::Other),
    (b"brick", Known::Other),
    (b"hexagon", Known::Other),
    (b"gradient", Known::Other),
    (b"brick_size", Known::Other),
    (b"mortar", Known::Other),
    (b"ambient", Known::Other),
    (b"diffuse", Known::Other),
    (b"phong", Known::Other),
    (b"phong_size", Known::Other),
    (b"specular", Known::Other),
    (b"roughness", Known::Other),
    (b"reflection", Known::Other),
    (b"ior", Known::Other),
    (b"perspective", Known::Other),
    (b"orthographic", Known::Other),
    (b"location", Known::Other),
    (b"direction", Known::Other),
    (b"right", Known::Other),
    (b"up", Known::Other),
    (b"sky", Known::Other),
    (b"angle", Known::Other),
    (b"look_at", Known::Other),
    (b"shadowless", Known::Other),
    (b"background", Known::Other),
    (b"global_settings", Known::Other),
    (b"assumed_gamma", Known::Other),
    (b"max_trace_level", Known::Other),
    (b"ambient_light", Known::Other),
    (b"adc_bailout", Known::Other),
    (b"hierarchy", Known::Other),
    (b"inside_vector", Known::Other),
    (b"spotlight", Known::Other),
    (b"radius", Known::Other),
    (b"falloff", Known::Other),
    (b"tightness", Known::Other),
    (b"point_at", Known::Other),
    (b"fade_distance", Known::Other),
    (b"fade_power", Known::Other),
];

/// What the first entry is that is spelled like the word.
fn known_in(table: &[(&[u8], Known)], word: &[u8]) -> Option<Known>
    ensures { result ≡ known_in (λ entry. entry.0.now) (λ entry. entry.1) word.now table.now }
{
    for (spelling, known) in table {
        if word == *spelling {
            return Some(*known);
        }
    }
    None
}

#[tactic(auto, unfolding(crate::specs::Words::kept))]
fn kept(word: &[u8]) -> Option<Known>
    ensures { result ≡ kept word.now }
{
    known_in(&KEPT, word)
}

fn by_class(class: Option<WordClass>) -> Option<Known>
    ensures { result ≡ by_class class }
{
    match class {
        Some(WordClass::Colour) => Some(Known::Colour),
        Some(WordClass::Value) => Some(Known::Other),
        Some(WordClass::Call) => Some(Known::Other),
        None => None,
    }
}

/// What the language keeps this word for; none where a scene may give it a meaning.
pub fn known_of(word: &[u8]) -> Option<Known>
    ensures { result ≡ known_of word.now }
{
    match kept(word) {
        Some(known) => Some(known),
        None => by_class(word_class(word)),
    }
}
