// Items and gaps as text.
use composables::{ItemView, Memory};
use frame_meaning::Side;
use std::alloc::Global;

// An item or gap as text: its frames, of an item after its number and its first source frame, and the number of its
// link.
fn told(alloc: Global, view: &ItemView) -> Result<String, Memory> {
    let Side::Pic { source, .. } = view.first else {
        return Ok(format!(in alloc; " +{}", view.len)?);
    };
    let item = view.item.unwrap_or(0);
    match view.link {
        Some(link) => Ok(format!(in alloc; " {item}@{source}+{}#{}", view.len, link.number)?),
        None => Ok(format!(in alloc; " {item}@{source}+{}", view.len)?),
    }
}

/// All of these as text, one after another: a gap as `+` and its frames; an item as its number, `@` and its first
/// source
/// frame, `+` and its frames, and `#` and the number of its link if it has one.
pub fn told_all(alloc: Global, items: &[ItemView]) -> Result<String, Memory> {
    let mut text = String::new(alloc);
    for view in items {
        text.push_str(told(alloc, view)?.as_str())?;
    }
    Ok(text)
}
