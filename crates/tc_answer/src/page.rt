//! The page that shows histories in a browser: one file of HTML, which holds their text.
ghost use Rattle.std.specs.Prelude.{◌≡◌, ◌++◌, IfOk, OnOk};
ghost use Rattle.tc_answer.specs.{Page.held, Page.page_of};

use crate::head::HEAD;
use crate::tail::TAIL;
use std::alloc::Global;
use tc_entry::NoMemory;

// Appends the text, with the character U+2039 for each `<`.
fn append_held(page: &mut Vec<u8>, text: &[u8]) -> Result<(), NoMemory>
    ensures { OnOk result (page.new.items ≡ page.old.items ++ held text.now) }
{
    for byte in text {
        if *byte == b'<' {
            page.extend_from_slice(b"\xe2\x80\xb9")?;
        } else {
            page.push(*byte)?;
        }
    }
    Ok(())
}

/// The page that holds this text.
pub fn html_page(alloc: Global, text: &[u8]) -> Result<Vec<u8>, NoMemory>
    ensures { IfOk result (λ v. v.items ≡ page_of text.now) }
{
    let mut page = Vec::new(alloc);
    page.extend_from_slice(HEAD)?;
    append_held(&mut page, text)?;
    page.extend_from_slice(TAIL)?;
    Ok(page)
}
