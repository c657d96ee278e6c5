// The names of picture files. (Reference manual, output file name)
ghost use Rattle.std.specs.Prelude.{◌≡◌, ◌≤◌, ◌++◌, length, IfOk};
ghost use Rattle.options.specs.Names.{left_of, front_length, stem_of, extension_of, sort_extension, image_name};

use crate::draft::copied;
use fix_math::Str;
use image_out::Sort;
use std::alloc::{AllocError, Global};

/// How many bytes stand up to the last mark of a text, and with it; 0 where there is none.
pub fn front_length(mark: u8, text: &[u8]) -> usize
    ensures value { result ≡ front_length mark text.now }
    ensures within { result ≤ length text.now }
{
    let mut rest = text;
    while let [more @ .., byte] = rest {
        if *byte == mark {
            return rest.len();
        }
        rest = more;
    }
    0
}

/// A name up to its last dot.
pub fn stem(name: &[u8]) -> &[u8]
    ensures { result.now ≡ stem_of name.now }
{
    let front = front_length(b'.', name);
    if front == 0 { name } else { &name[..front - 1] }
}

/// The last dot of a name, and what stands behind it.
pub fn extension(name: &[u8]) -> &[u8]
    ensures { result.now ≡ extension_of name.now }
{
    let front = front_length(b'.', name);
    if front == 0 { &[] } else { &name[front - 1..] }
}

fn sort_extension(sort: Sort) -> &'static [u8]
    ensures { result.now ≡ sort_extension sort }
{
    match sort {
        Sort::Ppm => b".ppm",
        Sort::Targa => b".tga",
        Sort::TargaRle => b".tga",
    }
}

fn joined(alloc: Global, front: &[u8], back: &[u8]) -> Result<Str, AllocError>
    ensures { IfOk result (λ name. name ≡ front.now ++ back.now) }
{
    let mut name = front.to_vec(alloc)?;
    name.extend_from_slice(back)?;
    Ok(Str::new(name))
}

/// The name of the picture file.
pub fn image_name(alloc: Global, sort: Sort, input: &[u8], output: &[u8]) -> Result<Str, AllocError>
    ensures { IfOk result (λ name. name ≡ image_name sort input.now output.now) }
{
    if output.is_empty() {
        return joined(alloc, stem(input), sort_extension(sort));
    }
    if front_length(b'.', output) == 0 {
        return joined(alloc, output, sort_extension(sort));
    }
    copied(alloc, output)
}
