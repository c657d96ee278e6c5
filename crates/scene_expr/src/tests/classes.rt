// Words of expressions by their class, from the manual's lists.
use crate::{WordClass, word_class};
use std::test::Fail;

fn class_of(words: &[&[u8]], class: Option<WordClass>) -> bool {
    words.iter().all(|word| word_class(word) == class)
}

#[test]
fn words_have_their_class(rt: HostRuntime) -> Result<(), Fail> {
    let values: [&[u8]; 19] = [
        b"x",
        b"y",
        b"z",
        b"pi",
        b"true",
        b"on",
        b"yes",
        b"false",
        b"off",
        b"no",
        b"clock",
        b"frame_number",
        b"initial_clock",
        b"final_clock",
        b"initial_frame",
        b"final_frame",
        b"image_width",
        b"image_height",
        b"version",
    ];
    assert!(rt; class_of(&values, Some(WordClass::Value)));
    let calls: [&[u8]; 24] = [
        b"abs",
        b"ceil",
        b"floor",
        b"int",
        b"sqrt",
        b"sin",
        b"cos",
        b"tan",
        b"radians",
        b"degrees",
        b"mod",
        b"div",
        b"pow",
        b"min",
        b"max",
        b"vdot",
        b"vcross",
        b"vrotate",
        b"vlength",
        b"vnormalize",
        b"strlen",
        b"concat",
        b"chr",
        b"str",
    ];
    assert!(rt; class_of(&calls, Some(WordClass::Call)));
    let colours: [&[u8]; 11] = [
        b"color",
        b"colour",
        b"rgb",
        b"rgbf",
        b"rgbt",
        b"rgbft",
        b"red",
        b"green",
        b"blue",
        b"filter",
        b"transmit",
    ];
    assert!(rt; class_of(&colours, Some(WordClass::Colour)));
    let others: [&[u8]; 12] = [
        b"", b"X", b"rg", b"rgbftx", b"xx", b"sphere", b"defined", b"declare", b"Pi", b"t", b"u",
        b"Red",
    ];
    assert!(rt; class_of(&others, None));
    Ok(())
}
