//! The text of a page: the frame, and in it the title and the data, escaped.

ghost use Rattle.std.specs.Prelude.{◌≡◌, ◌++◌, IfOk, OnOk, option_map};
ghost use Rattle.sci_pages.specs.PageText.{escape as escape_of, escaped, page_text, title_of};

use crate::frame::PAGE_HEAD;
use crate::kind::PageKind;
use sci_text::push_text;
use std::alloc::{AllocError, Global};

/// Appends a byte of a text, or the reference that stands for it where HTML gives it a meaning.
#[tactic(auto, unfolding(crate::specs::PageText::escape))]
fn push_escape(out: &mut Vec<u8>, byte: u8) -> Result<(), AllocError>
    ensures { OnOk result (out.new.items ≡ out.old.items ++ escape_of byte) }
{
    match byte {
        b'&' => push_text(out, "&amp;"),
        b'<' => push_text(out, "&lt;"),
        _ => {
            out.push(byte)?;
            Ok(())
        }
    }
}

/// Appends a text, escaped.
fn push_escaped(out: &mut Vec<u8>, text: &[u8]) -> Result<(), AllocError>
    ensures { OnOk result (out.new.items ≡ out.old.items ++ escaped text.now) }
{
    for byte in text {
        push_escape(out, *byte)?;
    }
    Ok(())
}

/// The title of a page: the one that is given, or else one for all of its kind.
fn title_or_name<'a>(kind: PageKind, title: Option<&'a str>) -> &'a str
    ensures { result.now ≡ title_of kind (option_map (λ it. it.now) title.entry) }
{
    match title {
        Some(title) => title,
        None => kind.name(),
    }
}

/// The page with a title and data. Refused if memory is.
#[tactic(auto, unfolding(crate::specs::PageText::page_text))]
pub fn framed(
    alloc: Global,
    kind: PageKind,
    title: Option<&str>,
    body: &[u8],
) -> Result<Vec<u8>, AllocError>
    ensures { IfOk result (λ text.
        text.items ≡ page_text kind (option_map (λ it. it.now) title.entry) body.now) }
{
    let title = title_or_name(kind, title);
    let mut out = Vec::new(alloc);
    push_text(&mut out, PAGE_HEAD)?;
    push_escaped(&mut out, title.as_bytes())?;
    push_text(&mut out, kind.parts())?;
    push_escaped(&mut out, body)?;
    push_text(&mut out, kind.end())?;
    Ok(out)
}
